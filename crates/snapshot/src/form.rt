// The form of a snapshot.
ghost use Rattle.std.specs.Prelude.{◌≡◌};
ghost use Rattle.wire.specs.Refusals.{verdict};
ghost use Rattle.snapshot.specs.Form.{well_formed, form_code};

use crate::keys::KEYS;
use crate::records::start_of;
use wire::Refusal;

// Whether there is no form fault: going through the records in order passes all of it.
#[tactic(auto, using(crate::proofs::Laws::Cursor::end))]
pub fn well_formed(snapshot: &[u8]) -> bool
    ensures { result ≡ well_formed snapshot.now }
{
    start_of(snapshot, KEYS) == snapshot.len()
}

// The verdict on the form of any bytes.
#[tactic(auto, unfolding(crate::specs::Form::form_code))]
pub fn check(snapshot: &[u8]) -> Result<(), Refusal>
    ensures { verdict result ≡ form_code snapshot.now }
{
    if well_formed(snapshot) {
        Ok(())
    } else {
        Err(Refusal::MalformedSnapshot)
    }
}
