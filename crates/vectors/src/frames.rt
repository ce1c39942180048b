// Calls on blocks of frame metadata and on payload headers.
use crate::buffers::{LENT, first};
use crate::print;
use crate::words::{Bytes, lay, number, octet, place, word};
use frame::{Item, Refusal};
use packet::{Flag, PayloadHeader};
use wire::Part;

// Where a refusal has no part.
const NOWHERE: Part = Part { at: 0, len: 0 };

// A part of a lent slice: its place, its length and its bytes.
fn part(s: &[u8], p: Part) {
    print::count(p.at);
    print::count(p.len);
    print::part(wire::part_at(s, p));
}

fn tally(block: &[u8]) {
    let counted = frame::count(block);
    print::code(wire::status(counted));
    print::count(counted.unwrap_or(0));
}

// An item's number and id, and the mark if it has it; where its payload stands.
fn entry(found: Result<Item, Refusal>) -> Part {
    print::code(wire::status(found));
    let item = found.unwrap_or(Item {
        id: 0,
        unknown: false,
        payload: NOWHERE,
    });
    print::hex(u64::from(item.id), 8);
    if item.unknown {
        printing::text(b" unknown");
    }
    item.payload
}

fn count(call: &[u8]) {
    tally(Bytes::<LENT>::of(word(call, 1)).as_slice());
}

// Number, id, mark, and the payload.
fn item(call: &[u8]) {
    let given = Bytes::<LENT>::of(word(call, 2));
    let block = given.as_slice();
    part(block, entry(frame::item(block, place(word(call, 1)))));
}

// A block that is too long to show: its first item, and how many it has.
fn long_block(call: &[u8]) {
    let mut bytes = [0; 65536];
    lay(word(call, 2), &mut bytes);
    let block = wire::head(&bytes, place(word(call, 1)));
    let payload = entry(frame::item(block, 0));
    print::count(payload.at);
    print::count(payload.len);
    tally(block);
}

// The number, the end, and the buffer's bytes from a place on.
fn append(call: &[u8]) {
    let payload = Bytes::<LENT>::of(word(call, 4));
    let mut room = [0xEEu8; 65536];
    let buf = first(&mut room, place(word(call, 1)));
    let end = frame::append(
        buf,
        place(word(call, 2)),
        number(word(call, 3), 0),
        payload.as_slice(),
    );
    print::code(wire::status(end));
    print::count(end.unwrap_or(0));
    print::bytes(wire::tail(buf, place(word(call, 5))));
}

// Number, flags, and the metadata.
fn header(call: &[u8]) {
    let given = Bytes::<LENT>::of(word(call, 1));
    let packet = given.as_slice();
    let read = packet::header(packet);
    print::code(wire::status(read));
    let header = read.unwrap_or(PayloadHeader {
        flags: 0,
        metadata: NOWHERE,
    });
    print::hex(u64::from(header.flags), 2);
    part(packet, header.metadata);
}

// Whether FID, EOF, PTS, SCR and ERR are set.
fn flags(call: &[u8]) {
    let byte = octet(word(call, 1), 0);
    printing::text(b" =");
    for flag in [Flag::Fid, Flag::Eof, Flag::Pts, Flag::Scr, Flag::Err] {
        print::count(usize::from(packet::has_flag(byte, flag)));
    }
}

// count BLOCK, item K BLOCK, long-block LENGTH BLOCK (zeros behind it up to the length), append ROOM PLACE ID PAYLOAD [FROM] (shown
// from there on), header PACKET, flags BYTE.
pub(crate) fn run(call: &[u8]) {
    match word(call, 0) {
        b"count" => count(call),
        b"item" => item(call),
        b"long-block" => long_block(call),
        b"append" => append(call),
        b"header" => header(call),
        b"flags" => flags(call),
        _ => {}
    }
}
