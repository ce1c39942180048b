// Tests 2 to 6 of a request, in document 01's order, over the table of a unit's controls.
ghost use Rattle.std.specs.Prelude.{◌≡◌};
ghost use Rattle.wire.specs.{Rows.{first_of}, Refusals.{verdict}};
ghost use Rattle.request.specs.{Table.{has_control, table_of}, Tests.{request_tests, is_addressed, is_understood, is_sized}};

use crate::setup::{is_get_request, is_set_request, selector, wlength};
use wire::Refusal;

// A unit: bit s - 1 of `present` says that the control of selector s is there.
#[derive(Clone, Copy)]
pub struct Unit {
    pub unit: u8,
    pub interface: u8,
    pub present: u32,
}

// The control that a setup selects: whether it takes a SET, and the length that a SET of the payload at hand must have.
#[derive(Clone, Copy)]
pub struct Control {
    pub settable: bool,
    pub len: usize,
}

// Whether the bit of a selector is set.
pub fn has_control(bits: u32, selector: u8) -> bool
    ensures { result ≡ has_control bits selector }
{
    selector != 0 && flags::is_set(u64::from(bits), selector - 1)
}

// wIndex names the unit in its high byte and the interface in its low one.
fn is_addressed(u: Unit, setup: &[u8]) -> bool
    ensures { result ≡ is_addressed u.unit u.interface setup.now }
{
    wire::byte(setup, 5) == u.unit && wire::byte(setup, 4) == u.interface
}

// A request that the control takes.
fn is_understood(settable: bool, setup: &[u8]) -> bool
    ensures { result ≡ is_understood settable setup.now }
{
    if wire::byte(setup, 2) != 0 {
        return false;
    }
    if is_set_request(setup) {
        settable
    } else {
        is_get_request(setup)
    }
}

// A GET's payload is empty; a SET's has wLength bytes, which is the length that the control takes.
fn is_sized(len: usize, setup: &[u8], payload: &[u8]) -> bool
    ensures { result ≡ is_sized len setup.now payload.now }
{
    if is_set_request(setup) {
        payload.len() == wlength(setup) && payload.len() == len
    } else {
        payload.is_empty()
    }
}

impl Unit {
    // Tests 2 to 6 of a request for this control: the first that fails refuses.
    #[tactic(auto, unfolding(crate::specs::Tests::request_tests))]
    pub fn check(self, c: Control, setup: &[u8], payload: &[u8]) -> Result<(), Refusal>
        ensures { verdict result ≡ first_of (request_tests (table_of self c) setup.now payload.now) }
    {
        if setup.len() != 8 {
            return Err(Refusal::Unknown);
        }
        if !is_addressed(self, setup) {
            return Err(Refusal::InvalidUnit);
        }
        if !has_control(self.present, selector(setup)) {
            return Err(Refusal::InvalidControl);
        }
        if !is_understood(c.settable, setup) {
            return Err(Refusal::InvalidRequest);
        }
        if !is_sized(c.len, setup, payload) {
            return Err(Refusal::Unknown);
        }
        Ok(())
    }
}
