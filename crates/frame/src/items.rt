// One item of a metadata block by itself.
ghost use Rattle.std.specs.Prelude.{◌≡◌, ◌≤◌, length, IfOk};
ghost use Rattle.frame.specs.{Items.{first_item}, Steps.{told_head}};

use crate::ids::is_readable;
use crate::refusals::Refusal;
use wire::Part;

// The bytes of an item's id and size (001's KSCAMERA_METADATA_ITEMHEADER), which stand before its payload and count in its size.
pub(crate) const ITEM_HEADER: usize = 8;

// An item's id, whether it is unknown, and the place of its payload.
#[derive(Clone, Copy)]
pub struct Item {
    pub id: u32,
    pub unknown: bool,
    pub payload: Part,
}

// An item's id, and its size with this header.
#[derive(Clone, Copy)]
pub(crate) struct ItemHeader {
    pub id: u32,
    pub size: usize,
}

// The item that the rest of a block begins with.
#[tactic(auto, unfolding(crate::specs::Items::first_item_under, crate::specs::Items::item_refusal_under))]
pub(crate) fn first_item(rest: &[u8]) -> Result<ItemHeader, Refusal>
    ensures is { told_head result ≡ first_item rest.now }
    ensures inside { IfOk result (λ h. (8 ≤ h.size) × (h.size ≤ length rest.now)) }
{
    if rest.len() < ITEM_HEADER {
        return Err(Refusal::Truncated);
    }
    let id = wire::le32(rest, 0);
    if !is_readable(id) {
        return Err(Refusal::InvalidId);
    }
    let size = wire::le32(rest, 4) as usize;
    if size < ITEM_HEADER {
        return Err(Refusal::ShortSize);
    }
    if rest.len() < size {
        return Err(Refusal::Truncated);
    }
    Ok(ItemHeader { id, size })
}
