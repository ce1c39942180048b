// How long the answers to a batch are, before any of them is written.
ghost use mathlib.Core.{Path.{◌≡◌}, Bool.{true}};
ghost use Rattle.std.specs.Prelude.{◌≤◌, ◌<◌, ◌^◌};
ghost use Rattle.wire.specs.Rows.{first_of};
ghost use Rattle.request.specs.Answers.{longest_answer};
ghost use Rattle.profile.specs.Profile.{profile_valid};
ghost use Rattle.batch.specs.{Refusals.{batch_verdict}, Answers.{reply_length}, Batch.{batch_tests}};

use crate::packing::{data_length, setup_at};
use crate::refusal::Refusal;
use profile::Profile;
use wire::Part;

// How many bytes of reply a request sends, whatever the settings and the streaming flag: an accepted GET's, else none.
#[tactic(auto, using(crate::proofs::Laws::Measuring::measuring_rules))]
fn reply_length(p: Profile, setup: &[u8], payload: &[u8]) -> usize
    requires { profile_valid p ≡ true }
    ensures { (result ≡ reply_length p (record { setup = setup.now; payload = payload.now })) × (result ≤ longest_answer) }
{
    if request::is_set_request(setup) {
        return 0;
    }
    let selector = request::selector(setup);
    let control = p.control(selector, payload);
    if p.extension_unit().check(control, setup, payload).is_err() {
        return 0;
    }
    let full = answering::answer_length(p, selector, request::code(setup));
    request::wlength(setup).min(full)
}

// Whether a batch is refused whole. No more than room + 1 bytes are counted, so that no sum wraps.
pub(crate) fn check(p: Profile, packed: &[u8], room: usize) -> Result<(), Refusal>
    requires { (profile_valid p ≡ true) × (room < 2 ^ 63) }
    ensures { batch_verdict result ≡ first_of (batch_tests p packed.now room) }
{
    let mut needed = 0;
    let mut at = 0;
    while at < packed.len() {
        let setup = setup_at(packed, at);
        let len = data_length(setup);
        if packed.len() - at < 8 + len {
            return Err(Refusal::Cut);
        }
        let payload = wire::part_at(packed, Part { at: at + 8, len });
        needed = (needed + 3 + reply_length(p, setup, payload)).min(room + 1);
        at += 8 + len;
    }
    if room < needed {
        return Err(Refusal::NoRoom);
    }
    Ok(())
}
