// GET's answers: one entry for each endpoint.
ghost use Rattle.std.specs.Prelude.{◌≡◌, ◌<◌};
ghost use Rattle.wire.specs.Endpoints.{endpoint_limit};
ghost use Rattle.request.specs.Answers.{packed};
ghost use Rattle.face.specs.Answers.{entry_of, default_of, held_at, flags_at, face_value, face_answer};

use crate::limits::{FaceLimits, endpoints_of};
use request::{Answer, LONGEST_ANSWER, answer_by};
use wire::{endpoints, uvc};

// The bytes of an entry.
fn entry_of(address: u8, flags: u8) -> [u8; 8]
    ensures { result ≡ entry_of address flags }
{
    [address, flags, 0, 0, 0, 0, 0, 0]
}

#[tactic(auto, unfolding(crate::specs::Answers::default_of))]
fn default_of(offers: u8) -> u8
    ensures { result ≡ default_of offers }
{
    if offers % 2 == 1 { 1 } else { offers }
}

// The setting held of an endpoint's address, which is FIRST or above, or 0 for none.
fn held_at(held: [u8; endpoints::PLACES], address: u8) -> u8
    ensures { result ≡ held_at held address }
{
    let place = address.saturating_sub(endpoints::FIRST);
    wire::byte(&held, usize::from(place))
}

// The flags of place i in an answer that lists every endpoint.
#[tactic(auto, unfolding(crate::specs::Answers::flags_at))]
fn flags_at(l: FaceLimits, held: [u8; endpoints::PLACES], code: u8, i: usize) -> u8
    requires { i < endpoint_limit }
    ensures { result ≡ flags_at l held code i }
{
    let offers = l.offers[i];
    match code {
        uvc::GET_MAX => offers,
        uvc::GET_CUR => match held_at(held, l.addresses[i]) {
            0 => default_of(offers),
            flags => flags,
        },
        _ => default_of(offers),
    }
}

// CUR, MIN, MAX, RES and DEF.
fn value(l: FaceLimits, held: [u8; endpoints::PLACES], code: u8) -> Answer
    ensures { result ≡ packed (face_value l held code) }
{
    let mut bytes = [0u8; LONGEST_ANSWER];
    if code == uvc::GET_MIN || code == uvc::GET_RES {
        return Answer { bytes, len: 1 };
    }
    let n = endpoints_of(l);
    bytes[0] = n as u8;
    for i in 0..n {
        let entry = entry_of(l.addresses[i], flags_at(l, held, code, i));
        wire::copy(&mut bytes, 1 + 8 * i, &entry);
    }
    Answer {
        bytes,
        len: 1 + 8 * n,
    }
}

pub fn answer(l: FaceLimits, held: [u8; endpoints::PLACES], code: u8) -> Answer
    ensures { result ≡ packed (face_answer l held code) }
{
    let value = value(l, held, code);
    answer_by(code, 1 + 8 * endpoints_of(l), 0x03, value.as_slice())
}
