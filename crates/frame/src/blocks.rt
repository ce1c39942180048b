// Reading a metadata block: the item asked for, with the place of its payload, and how many items there are.
ghost use Rattle.std.specs.Prelude.{◌≡◌};
ghost use Rattle.frame.specs.Items.{block_items, block_item, block_count};
ghost use Rattle.frame.specs.{Answers.{told_item, told_count}, Steps.{told_survey, survey_of}};

use crate::ids::is_known;
use crate::items::{ITEM_HEADER, Item, ItemHeader, first_item};
use crate::refusals::Refusal;
use wire::Part;

// The most bytes a block may have.
pub const LONGEST_BLOCK: usize = 65535;

// Walks the whole block, each item once: how many items there are, and item k.
#[tactic(auto, using(crate::proofs::Laws::Walk::begins, crate::proofs::Laws::Walk::ends), unfolding(crate::specs::Items::block_items_under))]
fn walk(block: &[u8], k: usize) -> Result<(usize, Option<Item>), Refusal>
    ensures { told_survey result ≡ survey_of k (block_items block.now) }
{
    if LONGEST_BLOCK < block.len() {
        return Err(Refusal::TooLong);
    }
    let mut at = 0;
    let mut n = 0;
    let mut found = None;
    while at < block.len() {
        let ItemHeader { id, size } = first_item(wire::tail(block, at))?;
        if n == k {
            found = Some(Item {
                id,
                unknown: !is_known(id),
                payload: Part {
                    at: at + ITEM_HEADER,
                    len: size - ITEM_HEADER,
                },
            });
        }
        at += size;
        n += 1;
    }
    Ok((n, found))
}

// Item k of the block, k from 0. `wire::part_at` hands out its payload.
#[tactic(auto, unfolding(crate::specs::Items::block_item))]
pub fn item(block: &[u8], k: usize) -> Result<Item, Refusal>
    ensures { told_item result ≡ block_item block.now k }
{
    walk(block, k)?.1.ok_or(Refusal::NoItem)
}

// How many items the block has.
#[tactic(auto, unfolding(crate::specs::Items::block_count))]
pub fn count(block: &[u8]) -> Result<usize, Refusal>
    ensures { told_count result ≡ block_count block.now }
{
    Ok(walk(block, 0)?.0)
}
