// The item reader that hands the payload itself back, in a struct that holds that part of the caller's block.
ghost use Rattle.frame.specs.{Items.{block_item}, Answers.{TellsView}};

use crate::blocks::item;
use crate::items::Item;
use crate::refusals::Refusal;

// An item's id, whether it is unknown, and its payload.
#[derive(Clone, Copy)]
pub struct ItemView<'a> {
    pub id: u32,
    pub unknown: bool,
    pub payload: &'a [u8],
}

// Item k of the block, k from 0: what `item` answers, with the part at the place that it gives.
pub fn item_view<'a>(block: &'a [u8], k: usize) -> Result<ItemView<'a>, Refusal>
    ensures { TellsView block.entry (block_item block.now k) result }
{
    let Item {
        id,
        unknown,
        payload,
    } = item(block, k)?;
    Ok(ItemView {
        id,
        unknown,
        payload: wire::part_at(block, payload),
    })
}
