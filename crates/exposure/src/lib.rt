// Exposure compensation (EV): limits, SET's value tests, the setting that a SET gives, GET's answers, and the number handed to the
// sensor. Document 01, "The five controls"; 003 decides for it.
// A setting is a step and a whole number of such steps, and what the sensor gets is exact: nothing here divides a setting.
// Its payload is seven bytes of flags, of which one says the step, then a signed 32-bit value in such steps.
#![tactic(auto)]

ghost use Rattle.std.specs.Prelude.{◌≡◌};
ghost use Rattle.wire.specs.Refusals.{verdict};
ghost use Rattle.controls.specs.Controls.{item_told};
ghost use Rattle.request.specs.Answers.{packed};
ghost use Rattle.exposure.specs.Exposure.{ev_valid, divisor, in_range, ev_refusal, ev_item, ev_bytes, ev_attribute, ev_answer, scaled};
ghost use Rattle.exposure.specs.Exposure.{sensor_value};

use controls::{EvSetting, Limits, Setting};
use request::{Answer, answer_by};
use wire::{Refusal, uvc};

// How many of the sensor's units make a stop. Every step is a whole number of them.
const UNITS_PER_STOP: i32 = 120;

// Whole stops, and the steps offered as flags D0 to D4.
#[derive(Clone, Copy)]
pub struct EvLimits {
    pub minimum: i32,
    pub maximum: i32,
    pub steps: u8,
}

// Steps to a stop, by the place of the step's flag.
fn divisor(place: u8) -> u8
    ensures { result ≡ divisor place }
{
    match place {
        0 => 6,
        1 => 4,
        2 => 3,
        3 => 2,
        _ => 1,
    }
}

// The payload of a setting.
#[tactic(auto, using(crate::proofs::Laws::Exposure::ev_bytes_are))]
pub fn bytes(s: EvSetting) -> [u8; 11]
    ensures { result ≡ ev_bytes s }
{
    let n = wire::bytes::<4>(u64::from(wire::bits32(s.value)));
    [s.flags, 0, 0, 0, 0, 0, 0, n[0], n[1], n[2], n[3]]
}

// The default is D4, whole stops, and 0.
const DEFAULT: EvSetting = EvSetting {
    flags: 16,
    value: 0,
};

impl Limits for EvLimits {
    type Value = EvSetting;

    ghost refusal = { λ l s. ev_refusal l s.flags s.value };

    fn check(self, s: EvSetting) -> Result<(), Refusal> {
        self.check_flags(u64::from(s.flags), s.value)
    }
}

impl EvLimits {
    pub fn valid(self) -> bool
        ensures { result ≡ ev_valid self }
    {
        (-128..=0).contains(&self.minimum)
            && (0..=127).contains(&self.maximum)
            && (16..32).contains(&self.steps)
    }

    // Whether the value lies between the limits, in steps of which d make a stop.
    fn in_range(self, d: u8, value: i32) -> bool
        ensures { result ≡ in_range self d value }
    {
        let d = i64::from(d);
        (i64::from(self.minimum) * d..=i64::from(self.maximum) * d).contains(&i64::from(value))
    }

    // SET's value tests on the flags and the value.
    #[tactic(auto, unfolding(crate::specs::Exposure::ev_refusal, crate::specs::Exposure::refusal_at))]
    pub fn check_flags(self, flags: u64, value: i32) -> Result<(), Refusal>
        ensures { verdict result ≡ ev_refusal self flags value }
    {
        let Some(place) = flags::one_flag(flags, self.steps) else {
            return Err(Refusal::InvalidValue);
        };
        if self.in_range(divisor(place), value) {
            Ok(())
        } else {
            Err(Refusal::OutOfRange)
        }
    }

    // What a SET's payload comes to.
    #[tactic(auto, using(crate::proofs::Laws::Item::refused, crate::proofs::Laws::Item::given, crate::proofs::Laws::Item::fits))]
    pub fn item(self, payload: &[u8]) -> Result<Setting, Refusal>
        ensures { item_told result ≡ ev_item self payload.now }
    {
        let flags = wire::flag_word(payload, 0);
        let value = wire::signed32(wire::le32(payload, 7));
        self.check_flags(flags, value)?;
        Ok(Setting::Ev(EvSetting {
            flags: flags as u8,
            value,
        }))
    }

    // The flags and the value that a GET asks for.
    #[tactic(auto, unfolding(crate::specs::Exposure::ev_attribute, crate::specs::Exposure::ev_current))]
    fn attribute(self, held: Option<EvSetting>, code: u8) -> EvSetting
        ensures { result ≡ ev_attribute self held code }
    {
        match code {
            uvc::GET_MIN => EvSetting {
                value: self.minimum,
                ..DEFAULT
            },
            uvc::GET_MAX => EvSetting {
                value: self.maximum,
                ..DEFAULT
            },
            uvc::GET_RES => EvSetting {
                flags: self.steps,
                value: 0,
            },
            uvc::GET_CUR => held.unwrap_or(DEFAULT),
            _ => DEFAULT,
        }
    }

    #[tactic(auto, unfolding(crate::specs::Exposure::ev_answer))]
    pub fn answer(self, held: Option<EvSetting>, code: u8) -> Answer
        ensures { result ≡ packed (ev_answer self held code) }
    {
        let b = bytes(self.attribute(held, code));
        answer_by(code, 11, 0x13, &b)
    }

    // A setting in the sensor's units, exactly.
    #[tactic(auto, unfolding(crate::specs::Exposure::scaled, crate::specs::Exposure::scaled_at))]
    fn scaled(self, s: EvSetting) -> i32
        ensures { result ≡ scaled self s }
    {
        if !self.valid() {
            return 0;
        }
        let Some(place) = flags::one_flag(u64::from(s.flags), self.steps) else {
            return 0;
        };
        let d = divisor(place);
        if self.in_range(d, s.value) {
            s.value * (UNITS_PER_STOP / i32::from(d))
        } else {
            0
        }
    }

    // What the sensor is handed, in its units: 0 where no setting that SET accepts is held.
    #[tactic(auto, unfolding(crate::specs::Exposure::sensor_value))]
    pub fn sensor_value(self, held: Option<EvSetting>) -> i32
        ensures { result ≡ sensor_value self held }
    {
        match held {
            None => 0,
            Some(s) => self.scaled(s),
        }
    }
}
