// HDR: SET's value tests, the setting that a SET gives, and GET's answers. Document 01, "The five controls"; 001 decides.
// Its payload is a number of four bytes: 0 off, 1 on and 2 auto. The maximum is a mask of modes and no largest mode.
#![tactic(auto)]

ghost use Rattle.std.specs.Prelude.{◌≡◌};
ghost use Rattle.wire.specs.Numbers.{le_at};
ghost use Rattle.request.specs.Answers.{packed};
ghost use Rattle.controls.specs.declared.Setting.TheVariants.{Hdr};
ghost use Rattle.hdr.specs.Hdr.{hdr_refusal, hdr_item, hdr_tested, hdr_attribute, hdr_answer};

use controls::{Limits, OneValue, Setting};
use request::{Answer, answer_by};
use wire::{Refusal, uvc};

// Whether Auto is offered.
#[derive(Clone, Copy)]
pub struct HdrLimits {
    pub auto: bool,
}

impl Limits for HdrLimits {
    type Value = u32;

    ghost refusal = { hdr_refusal };

    #[tactic(auto, unfolding(crate::specs::Hdr::hdr_refusal))]
    fn check(self, n: u32) -> Result<(), Refusal> {
        match n {
            0 | 1 => Ok(()),
            2 if self.auto => Ok(()),
            2 => Err(Refusal::InvalidValue),
            _ => Err(Refusal::OutOfRange),
        }
    }
}

impl OneValue for HdrLimits {
    ghost value_of = { λ payload. le_at 4 payload 0 };

    ghost setting_of = { Hdr };

    ghost comes_to = { hdr_item };

    fn value(payload: &[u8]) -> u32 {
        wire::le32(payload, 0)
    }

    fn setting(n: u32) -> Setting {
        Setting::Hdr(n)
    }

    ghost is_tested = { hdr_tested };
}

impl HdrLimits {
    // The number that a GET asks for.
    #[tactic(auto, using(controls::proofs::Laws::Controls::number_read), unfolding(crate::specs::Hdr::hdr_attribute))]
    fn attribute(self, held: Option<u32>, code: u8) -> u32
        ensures { result ≡ hdr_attribute self held code }
    {
        match code {
            uvc::GET_MAX if self.auto => 3,
            uvc::GET_MAX => 1,
            uvc::GET_CUR => held.unwrap_or(0),
            _ => 0,
        }
    }

    #[tactic(auto, unfolding(crate::specs::Hdr::hdr_answer))]
    pub fn answer(self, held: Option<u32>, code: u8) -> Answer
        ensures { result ≡ packed (hdr_answer self held code) }
    {
        let b = wire::bytes::<4>(u64::from(self.attribute(held, code)));
        answer_by(code, 4, 0x03, &b)
    }
}
