// Requests to the unit: document 01's nine tests, then a SET or a GET.
ghost use Rattle.std.specs.Prelude.{◌≡◌, length};
ghost use Rattle.wire.specs.Refusals.{verdict};
ghost use Rattle.request.specs.{Setup.{setup_w_length}, Reply.{sent_told, sent_of, reply_of}, Tests.{admission, asked}};
ghost use Rattle.peripheral.specs.{Outcomes.{of_change, of_request}, Requests.{table, requested, requested_reply}, Steps.{set_done}};

use crate::record::Peripheral;
use crate::selectors;
use crate::values::{answer_length, check_set, check_state, control};
use request::{Done, Unit};
use wire::Refusal;

impl Peripheral {
    // Tests 1 to 7: the first that fails refuses.
    #[tactic(auto, using(crate::proofs::Laws::Admission::admission_rules))]
    fn admit(self, setup: &[u8], payload: &[u8]) -> Result<(), Refusal>
        ensures { verdict result ≡ admission (table self) setup.now payload.now }
    {
        self.check()?;
        let selector = request::selector(setup);
        let unit = Unit {
            unit: self.unit,
            interface: self.interface,
            present: selectors::CONTROLS,
        };
        unit.check(control(selector), setup, payload)?;
        check_state(self.toggle, selector, request::code(setup))
    }

    // Test 8 of a SET, then its setting.
    #[tactic(auto, unfolding(crate::specs::Steps::set_done))]
    fn set(self, selector: u8, payload: &[u8]) -> Result<Peripheral, Refusal>
        ensures { of_change self result ≡ set_done self selector payload.now }
    {
        check_set(self.mask, selector, payload)?;
        Ok(self.after_set(selector, payload))
    }

    // Test 9 of a GET, then as much of its answer as wLength asks for; how much that is.
    #[tactic(auto, using(crate::proofs::Laws::Answers::answer_rules))]
    fn get(self, setup: &[u8], reply: &mut [u8]) -> Result<usize, Refusal>
        ensures value { sent_told result ≡ sent_of (asked (table self) setup.now) (setup_w_length setup.now) (length reply.old) }
        ensures reply_after { reply.new
            ≡ reply_of (asked (table self) setup.now) (setup_w_length setup.now) reply.old }
    {
        let selector = request::selector(setup);
        let code = request::code(setup);
        let bytes = wire::bytes::<8>(self.answer_number(selector, code));
        let answer = wire::head(&bytes, answer_length(selector, code));
        request::send(answer, request::wlength(setup), reply)
    }

    // A request: eight setup bytes and a payload; a GET's answer goes to the start of `reply`.
    #[tactic(auto, using(crate::proofs::Laws::Requests::request_rules))]
    pub fn request(
        self,
        setup: &[u8],
        payload: &[u8],
        reply: &mut [u8],
    ) -> Result<Done<Peripheral>, Refusal>
        ensures value { of_request self result ≡ requested self setup.now payload.now (length reply.old) }
        ensures reply_after { reply.new ≡ requested_reply self setup.now payload.now reply.old }
    {
        self.admit(setup, payload)?;
        if request::is_set_request(setup) {
            let next = self.set(request::selector(setup), payload)?;
            return Ok(Done { count: 0, next });
        }
        let count = self.get(setup, reply)?;
        Ok(Done { count, next: self })
    }
}
