// Entries of face authentication: what a SET of them comes to, the tests of each, and the settings with them. Document 01, "The five
// controls"; 003 decides. All entries are taken or none, and an endpoint that none names keeps its setting.
// Settings stand by address, that of 0x81 first: the flag chosen, or 0 for none. `face` has the limits and GET's answers.
#![tactic(auto)]

ghost use mathlib.Core.{Path.{◌≡◌}, Bool.{cond}};
ghost use Rattle.std.specs.Prelude.{ℕ, ◌<◌, ◌+◌, ◌^◌, get_or, IsOk};
ghost use Rattle.wire.specs.Endpoints.{first_address, places};
ghost use Rattle.face.specs.Limits.{offers_of};
ghost use Rattle.wire.specs.Refusals.{verdict};
ghost use Rattle.controls.specs.Controls.{item_told};
ghost use Rattle.entries.specs.Entries.{faces_told, face_set_length, entry_tests, face_item, flags_kept, faces_kept, put_face, faces_taken};

use controls::Setting;
use face::{FaceLimits, endpoints_of, offers_of, place_of};
use wire::{Refusal, endpoints};

// The length that a SET of this payload must have; 0 where no length will do.
#[tactic(auto, using(crate::proofs::Laws::Payload::set_length_empty, crate::proofs::Laws::Payload::set_length_first))]
pub fn set_length(l: FaceLimits, payload: &[u8]) -> usize
    ensures { result ≡ face_set_length l payload.now }
{
    match payload.first() {
        None => 1,
        Some(&n) if n <= l.count => 1 + 8 * usize::from(n),
        Some(_) => 0,
    }
}

// The tests of an entry: what its endpoint offers, whether an entry before it named that, and its flags, which fit a byte if taken.
#[tactic(auto, using(crate::proofs::Laws::Payload::chosen_byte), unfolding(crate::specs::Entries::is_choice))]
fn check(offers: u8, seen: bool, flags: u64) -> Result<(), Refusal>
    ensures value { verdict result ≡ entry_tests offers seen flags }
    ensures small { IsOk result → flags < 2 ^ 56 → flags < 256 }
{
    if offers == 0 {
        return Err(Refusal::OutOfRange);
    }
    if seen || flags::one_flag(flags, offers).is_none() {
        return Err(Refusal::InvalidValue);
    }
    Ok(())
}

// What the one entry of a snapshot's record comes to.
#[tactic(auto, using(crate::proofs::Laws::Entries::first_refused, crate::proofs::Laws::Entries::first_given))]
pub fn item(l: FaceLimits, payload: &[u8]) -> Result<Setting, Refusal>
    ensures { item_told result ≡ face_item l payload.now 0 }
{
    let address = wire::byte(payload, 1);
    let flags = wire::flag_word(payload, 2);
    check(offers_of(l, address), false, flags)?;
    Ok(Setting::Face {
        address,
        flags: flags as u8,
    })
}

// An address outside 0x81..0x8F has no place.
#[tactic(auto, using(crate::proofs::Laws::Held::put_outside), unfolding(crate::specs::Entries::put_face))]
fn lay(held: &mut [u8], address: u8, flags: u8)
    ensures { held.new ≡ put_face held.old address flags }
{
    let Some(place) = address.checked_sub(endpoints::FIRST) else {
        return;
    };
    let place = usize::from(place);
    if place < held.len() {
        held[place] = flags;
    }
}

// Settings with one more.
pub fn put(held: [u8; endpoints::PLACES], address: u8, flags: u8) -> [u8; endpoints::PLACES]
    ensures { result ≡ put_face held address flags }
{
    let mut next = held;
    lay(&mut next, address, flags);
    next
}

// What a SET comes to: the first refusal of its entries, or the settings with all of them.
pub fn take(
    l: FaceLimits,
    held: [u8; endpoints::PLACES],
    payload: &[u8],
) -> Result<[u8; endpoints::PLACES], Refusal>
    ensures { faces_told held result ≡ faces_taken l held payload.now }
{
    let mut seen = [false; endpoints::LIMIT];
    let mut next = held;
    for i in 0..usize::from(wire::byte(payload, 0)) {
        let at = 1 + 8 * i;
        let address = wire::byte(payload, at);
        let Some(place) = place_of(l, address) else {
            return Err(Refusal::OutOfRange);
        };
        let flags = wire::flag_word(payload, at + 1);
        check(l.offers[place], seen[place], flags)?;
        seen[place] = true;
        lay(&mut next, address, flags as u8);
    }
    Ok(next)
}

// What each address offers, by its place; nothing where the control is absent. Of places that list one address the first wins.
#[tactic(auto, using(crate::proofs::Laws::Held::table_next), unfolding(face::specs::Limits::offers_from, face::specs::Limits::offers_of))]
fn offers_by_place(l: FaceLimits, present: bool) -> [u8; endpoints::PLACES]
    ensures { (i : ℕ) → i < places → get_or result i 0 ≡ cond present (offers_of l (first_address + i)) 0 }
{
    let mut table = [0u8; endpoints::PLACES];
    if !present {
        return table;
    }
    for i in (0..endpoints_of(l)).rev() {
        lay(&mut table, l.addresses[i], l.offers[i]);
    }
    table
}

fn flags_kept(offers: u8, flags: u8) -> bool
    ensures { result ≡ flags_kept offers flags }
{
    flags == 0 || check(offers, false, u64::from(flags)).is_ok()
}

// Whether every setting held keeps its rules.
pub fn kept(l: FaceLimits, present: bool, held: [u8; endpoints::PLACES]) -> bool
    ensures { result ≡ faces_kept present l held }
{
    let offers = offers_by_place(l, present);
    offers.iter().zip(&held).all(|(o, h)| flags_kept(*o, *h))
}
