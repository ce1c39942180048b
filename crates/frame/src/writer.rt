// Writing one item at a place of a lent buffer. What stands before the place is not read.
ghost use Rattle.std.specs.Prelude.{◌≡◌, ◌+◌, ◌≤◌, length};
ghost use Rattle.wire.specs.Writes.{overlay};
ghost use Rattle.frame.specs.{Answers.{told_end}, Writer.{item_bytes, appended_of, written_of}};

use crate::blocks::LONGEST_BLOCK;
use crate::ids::is_known;
use crate::items::ITEM_HEADER;
use crate::refusals::Refusal;

// Where an item of `len` payload bytes at a place in `room` bytes ends, if it may be written. No sum can wrap.
#[tactic(auto, unfolding(crate::specs::Writer::append_refusal, crate::specs::Writer::appended_of))]
fn item_end(room: usize, at: usize, id: u32, len: usize) -> Result<usize, Refusal>
    ensures { told_end result ≡ appended_of room at id len }
{
    if !is_known(id) {
        return Err(Refusal::InvalidId);
    }
    let end = at.saturating_add(ITEM_HEADER).saturating_add(len);
    if LONGEST_BLOCK < end {
        return Err(Refusal::TooLong);
    }
    if room < end {
        return Err(Refusal::NoRoom);
    }
    Ok(end)
}

// Writes the item where there is room.
#[tactic(auto, using(crate::proofs::Laws::Append::item_in_turn))]
fn put_item(buf: &mut [u8], at: usize, id: u32, payload: &[u8])
    requires { (at + 8 + length payload.now ≤ 65535) × (at + 8 + length payload.now ≤ length buf.old) }
    ensures { buf.new ≡ overlay buf.old at (item_bytes id payload.now) }
{
    let size = ITEM_HEADER + payload.len();
    wire::put32(buf, at, id);
    wire::put32(buf, at + 4, size as u32);
    wire::copy(buf, at + ITEM_HEADER, payload);
}

// Puts the item with this id and payload at a place of the buffer, and hands back the place behind it. Only the item's bytes change.
#[tactic(auto, using(crate::proofs::Laws::Append::accepted), unfolding(crate::specs::Writer::appended_of, crate::specs::Writer::written_of))]
pub fn append(buf: &mut [u8], at: usize, id: u32, payload: &[u8]) -> Result<usize, Refusal>
    ensures { (told_end result ≡ appended_of (length buf.old) at id (length payload.now))
        × (buf.new ≡ written_of buf.old at id payload.now) }
{
    let end = item_end(buf.len(), at, id, payload.len())?;
    put_item(buf, at, id, payload);
    Ok(end)
}
