// Metadata: limits, SET's value tests, the setting that a SET gives, and GET's answers. Document 01, "The five controls"; 001 decides.
// Its payload is a number of four bytes, the size of the buffer that frame metadata goes to; 0 turns it off and the maximum on.
#![tactic(auto)]

ghost use Rattle.std.specs.Prelude.{◌≡◌};
ghost use Rattle.wire.specs.Numbers.{le_at};
ghost use Rattle.request.specs.Answers.{packed};
ghost use Rattle.controls.specs.declared.Setting.TheVariants.{Metadata};
ghost use Rattle.metadata.specs.Metadata.{metadata_valid, metadata_refusal, metadata_item, metadata_tested};
ghost use Rattle.metadata.specs.Metadata.{metadata_attribute, metadata_info, metadata_answer};

use controls::{Limits, OneValue, Setting};
use request::{Answer, answer_by};
use wire::{Refusal, uvc};

#[derive(Clone, Copy)]
pub struct MetadataLimits {
    pub maximum: u32,
    pub writable: bool,
}

impl Limits for MetadataLimits {
    type Value = u32;

    ghost refusal = { metadata_refusal };

    #[tactic(auto, unfolding(crate::specs::Metadata::metadata_refusal))]
    fn check(self, n: u32) -> Result<(), Refusal> {
        if self.maximum < n {
            return Err(Refusal::OutOfRange);
        }
        if n != 0 && n != self.maximum {
            return Err(Refusal::InvalidValue);
        }
        Ok(())
    }
}

impl OneValue for MetadataLimits {
    ghost value_of = { λ payload. le_at 4 payload 0 };

    ghost setting_of = { Metadata };

    ghost comes_to = { metadata_item };

    fn value(payload: &[u8]) -> u32 {
        wire::le32(payload, 0)
    }

    fn setting(n: u32) -> Setting {
        Setting::Metadata(n)
    }

    ghost is_tested = { metadata_tested };
}

impl MetadataLimits {
    pub fn valid(self) -> bool
        ensures { result ≡ metadata_valid self }
    {
        1 <= self.maximum
    }

    // The number that a GET asks for.
    #[tactic(auto, using(controls::proofs::Laws::Controls::number_read), unfolding(crate::specs::Metadata::metadata_attribute))]
    fn attribute(self, held: Option<u32>, code: u8) -> u32
        ensures { result ≡ metadata_attribute self held code }
    {
        match code {
            uvc::GET_MAX => self.maximum,
            uvc::GET_RES => if self.writable { self.maximum } else { 0 },
            _ if !self.writable => self.maximum,
            uvc::GET_CUR => held.unwrap_or(0),
            _ => 0,
        }
    }

    // The information byte: read-only metadata can be asked for and not set.
    #[tactic(auto, unfolding(crate::specs::Metadata::metadata_info))]
    fn info(self) -> u8
        ensures { result ≡ metadata_info self }
    {
        if self.writable { 0x03 } else { 0x01 }
    }

    #[tactic(auto, unfolding(crate::specs::Metadata::metadata_answer))]
    pub fn answer(self, held: Option<u32>, code: u8) -> Answer
        ensures { result ≡ packed (metadata_answer self held code) }
    {
        let b = wire::bytes::<4>(u64::from(self.attribute(held, code)));
        answer_by(code, 4, self.info(), &b)
    }
}
