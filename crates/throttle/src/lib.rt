// The throttle: limits, SET's value tests, the setting that a SET gives, and GET's answers. Document 01, "The five controls"; 001 decides.
// Its payload is five numbers of four bytes: mode, percent, minimum, maximum and step; a SET's last three are not looked at.
#![tactic(auto)]

ghost use Rattle.std.specs.Prelude.{◌≡◌};
ghost use Rattle.request.specs.Answers.{packed};
ghost use Rattle.controls.specs.declared.Setting.TheVariants.{Throttle};
ghost use Rattle.throttle.specs.Throttle.{throttle_valid, throttle_value, throttle_refusal, throttle_item, throttle_tested};
ghost use Rattle.throttle.specs.Throttle.{throttle_attribute, throttle_bytes, throttle_answer};

use controls::{Limits, OneValue, Setting, ThrottleSetting};
use request::{Answer, answer_by};
use wire::{Refusal, uvc};

#[derive(Clone, Copy)]
pub struct ThrottleLimits {
    pub minimum: u32,
    pub maximum: u32,
    pub step: u32,
}

impl Limits for ThrottleLimits {
    type Value = ThrottleSetting;

    ghost refusal = { λ l s. throttle_refusal l s.mode s.percent };

    #[tactic(auto, unfolding(crate::specs::Throttle::throttle_refusal))]
    fn check(self, s: ThrottleSetting) -> Result<(), Refusal> {
        if !(self.minimum..=self.maximum).contains(&s.percent) {
            return Err(Refusal::OutOfRange);
        }
        if 1 < s.mode || !s.percent.is_multiple_of(self.step) {
            return Err(Refusal::InvalidValue);
        }
        Ok(())
    }
}

impl OneValue for ThrottleLimits {
    ghost value_of = { throttle_value };

    ghost setting_of = { Throttle };

    ghost comes_to = { throttle_item };

    fn value(payload: &[u8]) -> ThrottleSetting {
        ThrottleSetting {
            mode: wire::le32(payload, 0),
            percent: wire::le32(payload, 4),
        }
    }

    fn setting(s: ThrottleSetting) -> Setting {
        Setting::Throttle(s)
    }

    ghost is_tested = { throttle_tested };
}

// The payload of a setting, with three numbers behind it: the limits in an answer, zeros in a snapshot.
#[tactic(auto, using(crate::proofs::Laws::Throttle::throttle_written))]
pub fn bytes(s: ThrottleSetting, tail: ThrottleLimits) -> [u8; 20]
    ensures { result ≡ throttle_bytes s tail }
{
    let mut b = [0u8; 20];
    wire::put32(&mut b, 0, s.mode);
    wire::put32(&mut b, 4, s.percent);
    wire::put32(&mut b, 8, tail.minimum);
    wire::put32(&mut b, 12, tail.maximum);
    wire::put32(&mut b, 16, tail.step);
    b
}

impl ThrottleLimits {
    pub fn valid(self) -> bool
        ensures { result ≡ throttle_valid self }
    {
        1 <= self.minimum
            && self.minimum <= self.maximum
            && self.maximum <= 100
            && 1 <= self.step
            && self.minimum.is_multiple_of(self.step)
            && self.maximum.is_multiple_of(self.step)
    }

    // The mode and the percent that a GET asks for.
    #[tactic(auto, unfolding(crate::specs::Throttle::throttle_attribute, crate::specs::Throttle::throttle_current))]
    fn attribute(self, held: Option<ThrottleSetting>, code: u8) -> ThrottleSetting
        ensures { result ≡ throttle_attribute self held code }
    {
        let default = ThrottleSetting {
            mode: 0,
            percent: self.maximum,
        };
        match code {
            uvc::GET_MIN => ThrottleSetting {
                percent: self.minimum,
                ..default
            },
            uvc::GET_MAX => ThrottleSetting { mode: 1, ..default },
            uvc::GET_RES => ThrottleSetting {
                percent: self.step,
                ..default
            },
            uvc::GET_CUR => held.unwrap_or(default),
            _ => default,
        }
    }

    #[tactic(auto, unfolding(crate::specs::Throttle::throttle_answer))]
    pub fn answer(self, held: Option<ThrottleSetting>, code: u8) -> Answer
        ensures { result ≡ packed (throttle_answer self held code) }
    {
        let b = bytes(self.attribute(held, code), self);
        answer_by(code, 20, 0x03, &b)
    }
}
