// The records of a snapshot: the key of one, and going from one to the next.
ghost use Rattle.std.specs.{Prelude.{◌≡◌, drop, length}, Iterator.{at_most}};
ghost use Rattle.snapshot.specs.{Form.{throttle_tail, zeros}, Records.{key_at, some_key, RecordAt, unread, NextRecord}};
ghost use Rattle.snapshot.specs.Steps.{EndsBelow};

use crate::keys::{KEYS, THROTTLE_KEY, key_by, record_length};
use wire::Part;

// No record has fewer bytes.
const SHORTEST: usize = 8;

// Whether the tail of a throttle's record is zero.
fn zero_tail(r: &[u8]) -> bool
    ensures { result ≡ zeros (throttle_tail r.now) }
{
    wire::part_at(r, Part { at: 12, len: 12 })
        .iter()
        .all(|b| *b == 0)
}

// The key of the sound record at the start of r, if one stands there.
#[tactic(auto, using(crate::proofs::Laws::Told::short_none, crate::proofs::Laws::Told::cut_none))]
fn key_here(r: &[u8]) -> Option<usize>
    ensures { result ≡ some_key (key_at r.now) }
{
    if r.len() < SHORTEST {
        return None;
    }
    let len = wire::le16(r, 0);
    if r.len() < len {
        return None;
    }
    let kind = wire::le16(r, 2);
    let entries = usize::from(r[4]);
    let address = usize::from(r[5]);
    let key = key_by(len, kind, entries, address)?;
    if key == THROTTLE_KEY && !zero_tail(r) {
        return None;
    }
    Some(key)
}

// The key of the sound record at `at`, if one stands there.
#[tactic(auto, using(wire::proofs::Laws::Parts::rest))]
pub fn key_at(s: &[u8], at: usize) -> Option<usize>
    ensures { result ≡ some_key (key_at (drop at s.now)) }
{
    key_here(wire::tail(s, at))
}

// Going from record to record as long as they are sound, whatever the order of their keys is: each key with its record.
#[derive(Clone, Copy)]
pub struct Records<'a> {
    rest: &'a [u8],
}

// The records that stand in s, from its first byte on.
pub fn records_in(s: &[u8]) -> Records<'_>
    ensures { unread result ≡ s.entry }
{
    Records { rest: s }
}

impl<'a> Iterator for Records<'a> {
    type Item = (usize, &'a [u8]);

    ghost next_gives = { NextRecord };

    ghost remaining = { λ s. at_most (length (unread s).now) };

    fn next(&mut self) -> Option<(usize, &'a [u8])> {
        let key = key_here(self.rest)?;
        let len = record_length(key);
        let record = wire::head(self.rest, len);
        self.rest = wire::tail(self.rest, len);
        Some((key, record))
    }
}

// Where the records of the keys below this one end. It goes from record to record while their keys ascend.
pub(crate) fn start_of(s: &[u8], key: usize) -> usize
    ensures { EndsBelow s.now result key }
{
    let mut at = 0;
    let mut low = 0;
    while let Some(k) = key_at(s, at)
        && low <= k
        && k < key
    {
        at += record_length(k);
        low = k + 1;
    }
    at
}

// The record of a key, whole, where it stands; none where there is none.
pub fn record_of(s: &[u8], key: usize) -> Option<&[u8]>
    ensures { RecordAt s.entry key result }
{
    if KEYS <= key {
        return None;
    }
    let at = start_of(s, key);
    if key_at(s, at) != Some(key) {
        return None;
    }
    let len = record_length(key);
    Some(wire::part_at(s, Part { at, len }))
}
