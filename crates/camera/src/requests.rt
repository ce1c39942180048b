// Requests to the extension unit: document 01's nine tests, then a SET or a GET.
ghost use Rattle.std.specs.Prelude.{◌≡◌, length};
ghost use Rattle.wire.specs.Refusals.{verdict};
ghost use Rattle.request.specs.{Setup.{setup_w_length}, Reply.{sent_told, sent_of, reply_of}, Tests.{asked}};
ghost use Rattle.camera.specs.{Outcomes.{of_change, of_request}, Steps.{set_done}};
ghost use Rattle.camera.specs.Requests.{state_refusal, control_refusal, table, requested, requested_reply};

use crate::record::Camera;
use request::Done;
use wire::{Refusal, selectors, uvc};

// Test 7: the throttle is set only while streaming.
fn check_state(streaming: bool, selector: u8, code: u8) -> Result<(), Refusal>
    ensures { verdict result ≡ state_refusal streaming selector code }
{
    if selector == selectors::THROTTLE && code == uvc::SET_CUR && !streaming {
        return Err(Refusal::WrongState);
    }
    Ok(())
}

impl Camera {
    // A SET before its payload is looked at.
    #[tactic(auto, using(crate::proofs::Laws::Requests::before_payload))]
    pub(crate) fn check_set(self, selector: u8) -> Result<(), Refusal>
        ensures { verdict result ≡ control_refusal self.profile self.streaming selector }
    {
        self.profile.check(selector)?;
        check_state(self.streaming, selector, uvc::SET_CUR)
    }

    // Test 8 of a SET, then its settings: all of them or none.
    #[tactic(auto, using(crate::proofs::Laws::Requests::set_done_lem))]
    fn set(self, selector: u8, payload: &[u8]) -> Result<Camera, Refusal>
        ensures { of_change self result ≡ set_done self selector payload.now }
    {
        let settings = self.settings.set(self.profile, selector, payload)?;
        Ok(Camera { settings, ..self })
    }

    // Test 9 of a GET, then as much of its answer as wLength asks for; how much that is.
    fn get(self, setup: &[u8], reply: &mut [u8]) -> Result<usize, Refusal>
        ensures value { sent_told result ≡ sent_of (asked (table self) setup.now) (setup_w_length setup.now) (length reply.old) }
        ensures reply_after { reply.new
            ≡ reply_of (asked (table self) setup.now) (setup_w_length setup.now) reply.old }
    {
        let selector = request::selector(setup);
        let answer = answering::answer(self.profile, self.settings, selector, request::code(setup));
        request::send(answer.as_slice(), request::wlength(setup), reply)
    }

    // A request: eight setup bytes and a payload; a GET's answer goes to the start of `reply`.
    #[tactic(auto, using(crate::proofs::Laws::Requests::requesting))]
    pub fn request(
        self,
        setup: &[u8],
        payload: &[u8],
        reply: &mut [u8],
    ) -> Result<Done<Camera>, Refusal>
        ensures value { of_request self result ≡ requested self setup.now payload.now (length reply.old) }
        ensures reply_after { reply.new ≡ requested_reply self setup.now payload.now reply.old }
    {
        self.check()?;
        let selector = request::selector(setup);
        let control = self.profile.control(selector, payload);
        self.profile
            .extension_unit()
            .check(control, setup, payload)?;
        check_state(self.streaming, selector, request::code(setup))?;
        if request::is_set_request(setup) {
            let next = self.set(selector, payload)?;
            return Ok(Done { count: 0, next });
        }
        let count = self.get(setup, reply)?;
        Ok(Done { count, next: self })
    }
}
