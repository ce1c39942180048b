// Merging two snapshots: one record for each key that is in either, in ascending order, the second's where both have it.
// Document 01, "Settings sheet", and demand 3's sentences on merging. Merging looks at form only, never at the values that records carry.
#![tactic(auto)]

ghost use Rattle.std.specs.Prelude.{ℕ, min};
ghost use mathlib.Core.{Path.{◌≡◌}, Bool.{true}};
ghost use lib.{ListN.{length}, Dec.{leb}};
ghost use Rattle.wire.specs.{Refusals.{verdict, count_of}, Writes.{overlay}};
ghost use Rattle.snapshot.specs.{Form.{well_formed}, Records.{some_key}};
ghost use Rattle.merging.specs.Merging.{merged, merge_code, merge_len, merge_out};

use snapshot::{LONGEST, key_at, record_length};
use wire::{Part, Refusal};

// The lesser of two keys, or the one that there is.
fn lesser(x: Option<usize>, y: Option<usize>) -> Option<usize>
    ensures { (i j : ℕ) → x ≡ some_key i → y ≡ some_key j → result ≡ some_key (min i j) }
{
    match (x, y) {
        (Some(k), Some(l)) => Some(k.min(l)),
        (Some(_), None) => x,
        (None, _) => y,
    }
}

// Writes the merged snapshot over the start of out, as far as out reaches, and returns how long all of it is.
fn write_merged(first: &[u8], second: &[u8], out: &mut [u8]) -> usize
    requires { (well_formed first.now ≡ true) × (well_formed second.now ≡ true) }
    ensures value { result ≡ length (merged first.now second.now) }
    ensures out_after { out.new ≡ overlay out.old 0 (merged first.now second.now) }
{
    // A place in each, and the key that stands there.
    let mut a = 0;
    let mut x = key_at(first, 0);
    let mut b = 0;
    let mut y = key_at(second, 0);
    let mut n = 0;
    while let Some(key) = lesser(x, y) {
        let len = record_length(key);
        if x == y {
            // Of equal keys the first's record is passed over.
            a += len;
            x = key_at(first, a);
        } else if x == Some(key) {
            wire::copy(out, n, wire::part_at(first, Part { at: a, len }));
            n += len;
            a += len;
            x = key_at(first, a);
        } else {
            wire::copy(out, n, wire::part_at(second, Part { at: b, len }));
            n += len;
            b += len;
            y = key_at(second, b);
        }
    }
    n
}

// Whether so much room is enough for the merged snapshot.
#[tactic(auto, using(crate::proofs::Laws::Merging::merged_length))]
fn has_room(first: &[u8], second: &[u8], room: usize) -> bool
    requires { (well_formed first.now ≡ true) × (well_formed second.now ≡ true) }
    ensures { result ≡ leb (length (merged first.now second.now)) room }
{
    if LONGEST <= room {
        return true;
    }
    // Into no room nothing is written: this only measures.
    let mut none = [0u8; 0];
    write_merged(first, second, &mut none) <= room
}

// Merges two snapshots into the start of out, and says how many bytes that is: a form fault of either is refused, then room short of it.
pub fn merge(first: &[u8], second: &[u8], out: &mut [u8]) -> Result<usize, Refusal>
    ensures code_value { verdict result ≡ merge_code first.now second.now out.old }
    ensures len_value { count_of result ≡ merge_len first.now second.now out.old }
    ensures out_after { out.new ≡ merge_out first.now second.now out.old }
{
    snapshot::check(first)?;
    snapshot::check(second)?;
    if !has_room(first, second, out.len()) {
        return Err(Refusal::NoRoom);
    }
    Ok(write_merged(first, second, out))
}
