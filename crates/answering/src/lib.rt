// A GET's full answer, control by control, by a camera's profile and settings, and how long it is, by the profile alone. Document 01, "The
// five controls".
// The crates of the controls know their own answers; `request` cuts an answer to wLength and sends it.
#![tactic(auto)]

ghost use Rattle.std.specs.Prelude.{◌≡◌};
ghost use Rattle.request.specs.Answers.{packed};
ghost use Rattle.answering.specs.Answering.{control_answer, answer_length};

use profile::Profile;
use request::Answer;
use settings::Settings;
use wire::{selectors, uvc};

#[tactic(auto, using(crate::proofs::Laws::Answering::by_control))]
pub fn answer(p: Profile, s: Settings, selector: u8, code: u8) -> Answer
    ensures { result ≡ packed (control_answer p s selector code) }
{
    match selector {
        selectors::EV => p.ev.answer(s.ev, code),
        selectors::FACE => face::answer(p.face, s.face, code),
        selectors::METADATA => p.metadata.answer(s.metadata, code),
        selectors::HDR => p.hdr.answer(s.hdr, code),
        _ => p.throttle.answer(s.throttle, code),
    }
}

// How long it is, whatever the settings: only face authentication's goes by the code.
#[tactic(auto, using(crate::proofs::Laws::Answering::length_by_lem))]
pub fn answer_length(p: Profile, selector: u8, code: u8) -> usize
    ensures { result ≡ answer_length p selector code }
{
    match code {
        uvc::GET_LEN => 2,
        uvc::GET_INFO => 1,
        uvc::GET_MIN | uvc::GET_RES if selector == selectors::FACE => 1,
        _ => p.payload_length(selector),
    }
}
