// Calls on snapshots.
use crate::buffers::{LENT, first};
use crate::print;
use crate::words::{Bytes, octet, place, word};

// The keys whose record is read.
fn keys(s: &[u8]) {
    for key in 0..snapshot::KEYS {
        if snapshot::record_of(s, key).is_some() {
            print::count(key);
        }
    }
}

// The verdict on the form, the key of the first record, and the keys whose record is read.
fn form(call: &[u8]) {
    let given = Bytes::<LENT>::of(word(call, 1));
    let s = given.as_slice();
    print::code(wire::status(snapshot::check(s)));
    printing::text(b" first");
    print::count(snapshot::key_at(s, 0).unwrap_or(snapshot::KEYS));
    printing::text(b" keys");
    keys(s);
}

// How many bytes the record at the start has, if it has this key.
fn passed(s: &[u8], key: usize) -> usize {
    if snapshot::key_at(s, 0) == Some(key) {
        snapshot::record_length(key)
    } else {
        0
    }
}

// A key's length, what is passed of it at the start, and the length of its record.
fn key(call: &[u8]) {
    let given = Bytes::<LENT>::of(word(call, 2));
    let s = given.as_slice();
    let key = place(word(call, 1));
    printing::text(b" =");
    print::count(snapshot::record_length(key));
    print::count(passed(s, key));
    print::count(snapshot::record_of(s, key).map_or(0, |record| record.len()));
}

// The verdict, the length, and all of the lent buffer.
fn merge(call: &[u8]) {
    let a = Bytes::<LENT>::of(word(call, 2));
    let b = Bytes::<LENT>::of(word(call, 3));
    let mut room = [0xEEu8; LENT];
    let out = first(&mut room, usize::from(octet(word(call, 1), 0)));
    let merged = merging::merge(a.as_slice(), b.as_slice(), out);
    print::code(wire::status(merged));
    print::count(merged.unwrap_or(0));
    print::bytes(out);
}

// form SNAPSHOT, key KEY SNAPSHOT, merge ROOM FIRST SECOND.
pub(crate) fn run(call: &[u8]) {
    match word(call, 0) {
        b"form" => form(call),
        b"key" => key(call),
        b"merge" => merge(call),
        _ => {}
    }
}
