// The values of the four controls: their lengths, information bytes and tests, what a SET leaves, and the answers to a GET.
// A selector that is none of theirs never comes here: test 4 refuses it.
ghost use Rattle.std.specs.Prelude.{◌≡◌};
ghost use Rattle.wire.specs.Refusals.{verdict};
ghost use Rattle.peripheral.specs.Values.{payload_length, info_of, is_settable, state_refusal, set_refusal, after_set};
ghost use Rattle.peripheral.specs.Values.{current, maximum, resolution, attribute};
ghost use Rattle.peripheral.specs.Steps.{control_of, answer_number, answer_length};

use crate::record::{MOST, Peripheral, mode_valid};
use crate::selectors;
use request::Control;
use wire::{Refusal, uvc};

fn payload_length(selector: u8) -> u8
    ensures { result ≡ payload_length selector }
{
    match selector {
        selectors::FRAME_STRATEGY => 8,
        selectors::OCCUPANCY_READING => 2,
        _ => 1,
    }
}

fn info(selector: u8) -> u8
    ensures { result ≡ info_of selector }
{
    match selector {
        selectors::OCCUPANCY_READING => 0x09,
        selectors::STATUS_RESET => 0x03,
        _ => 0x0B,
    }
}

// The reading is the detector's and takes no SET.
pub(crate) fn control(selector: u8) -> Control
    ensures { result ≡ control_of selector }
{
    Control {
        settable: selector != selectors::OCCUPANCY_READING,
        len: usize::from(payload_length(selector)),
    }
}

// Test 7: the reading has no current value while the toggle is 0.
pub(crate) fn check_state(toggle: u8, selector: u8, code: u8) -> Result<(), Refusal>
    ensures { verdict result ≡ state_refusal toggle selector code }
{
    if selector == selectors::OCCUPANCY_READING && code == uvc::GET_CUR && toggle == 0 {
        return Err(Refusal::WrongState);
    }
    Ok(())
}

// Test 8 of a SET.
#[tactic(auto, unfolding(crate::specs::Values::set_refusal))]
pub(crate) fn check_set(mask: u64, selector: u8, payload: &[u8]) -> Result<(), Refusal>
    ensures { verdict result ≡ set_refusal mask selector payload.now }
{
    if selector == selectors::FRAME_STRATEGY {
        if !mode_valid(mask, wire::le64(payload, 0)) {
            return Err(Refusal::InvalidValue);
        }
    } else if 1 < wire::byte(payload, 0) {
        return Err(Refusal::OutOfRange);
    }
    Ok(())
}

// The most that a control has.
fn maximum(mask: u64, selector: u8) -> u64
    ensures { result ≡ maximum mask selector }
{
    match selector {
        selectors::FRAME_STRATEGY => mask,
        selectors::OCCUPANCY_READING => u64::from(MOST),
        _ => 1,
    }
}

fn resolution(mask: u64, selector: u8) -> u64
    ensures { result ≡ resolution mask selector }
{
    match selector {
        selectors::FRAME_STRATEGY => mask,
        _ => 1,
    }
}

// How many bytes a GET's full answer has: LEN's two, INFO's one, the others the payload's.
pub(crate) fn answer_length(selector: u8, code: u8) -> usize
    ensures { result ≡ answer_length selector code }
{
    match code {
        uvc::GET_LEN => 2,
        uvc::GET_INFO => 1,
        _ => usize::from(payload_length(selector)),
    }
}

impl Peripheral {
    // What an accepted SET leaves. Asking for no reset changes nothing.
    #[tactic(auto, unfolding(crate::specs::Values::after_set))]
    pub(crate) fn after_set(self, selector: u8, payload: &[u8]) -> Peripheral
        ensures { result ≡ after_set self selector payload.now }
    {
        let byte = wire::byte(payload, 0);
        match selector {
            selectors::FRAME_STRATEGY => Peripheral {
                mode: wire::le64(payload, 0),
                ..self
            },
            selectors::OCCUPANCY_TOGGLE => Peripheral {
                toggle: byte,
                ..self
            },
            _ if byte == 0 => self,
            _ => Peripheral {
                reset: byte,
                ..self
            },
        }
    }

    fn current(self, selector: u8) -> u64
        ensures { result ≡ current self selector }
    {
        match selector {
            selectors::FRAME_STRATEGY => self.mode,
            selectors::OCCUPANCY_TOGGLE => u64::from(self.toggle),
            selectors::OCCUPANCY_READING => u64::from(self.count),
            _ => u64::from(self.reset),
        }
    }

    // The number that CUR, MIN, MAX, RES or DEF asks for. MIN and DEF are 0 of every control.
    fn attribute(self, selector: u8, code: u8) -> u64
        ensures { result ≡ attribute self selector code }
    {
        match code {
            uvc::GET_CUR => self.current(selector),
            uvc::GET_MAX => maximum(self.mask, selector),
            uvc::GET_RES => resolution(self.mask, selector),
            _ => 0,
        }
    }

    // A GET's full answer, as the number whose bytes it has.
    pub(crate) fn answer_number(self, selector: u8, code: u8) -> u64
        ensures { result ≡ answer_number self selector code }
    {
        match code {
            uvc::GET_LEN => u64::from(payload_length(selector)),
            uvc::GET_INFO => u64::from(info(selector)),
            _ => self.attribute(selector, code),
        }
    }
}
