// Settings of the Microsoft extension unit, whichever of its five controls they are of, and what an item of a SET comes to: the words that
// the crates of the controls share. Document 01, "The five controls".
// Each control has a crate of its own: `exposure`, `face` with `entries`, `metadata`, `hdr` and `throttle`. Nothing in them knows of a
// camera: each function goes by its control's limits, the setting held and the payload.
#![tactic(auto)]

ghost use Rattle.std.specs.Prelude.{◌≡◌, ℕ, List};
ghost use Rattle.wire.specs.Refusals.{verdict};
ghost use Rattle.controls.specs.Controls.{Item, item_told, item_of};
ghost use Rattle.controls.specs.declared.Setting.{Setting};

use wire::Refusal;

// The flag of a step, and a number of such steps.
#[derive(Clone, Copy)]
pub struct EvSetting {
    pub flags: u8,
    pub value: i32,
}

#[derive(Clone, Copy)]
pub struct ThrottleSetting {
    pub mode: u32,
    pub percent: u32,
}

// One setting, as a SET gives it. A face setting names its endpoint by the address.
#[derive(Clone, Copy)]
pub enum Setting {
    Ev(EvSetting),
    Face { address: u8, flags: u8 },
    Metadata(u32),
    Hdr(u32),
    Throttle(ThrottleSetting),
}

// The limits of a control, by which SETs of it are tested.
pub trait Limits: Copy {
    type Value: Copy;

    ghost refusal: { Self → Self.Value → ℕ };

    // SET's value tests, and those of a setting held.
    fn check(self, value: Self::Value) -> Result<(), Refusal>
        ensures { verdict result ≡ refusal self value };
}

// Limits of a control whose payload has one value, which any setting of it can hold.
pub trait OneValue: Limits {
    ghost value_of: { List ℕ → Self.Value };

    ghost setting_of: { Self.Value → Setting };

    ghost comes_to: { Self → List ℕ → Item };

    fn value(payload: &[u8]) -> Self::Value
        ensures { result ≡ value_of payload.now };

    fn setting(value: Self::Value) -> Setting
        ensures { result ≡ setting_of value };

    ghost is_tested: { (l : Self) (b : List ℕ) → item_of (Self.refusal l (value_of b)) (setting_of (value_of b)) ≡ comes_to l b };

    // What a SET's payload comes to.
    #[tactic(auto, using(wire::proofs::Laws::Refusals::refused), unfolding(crate::specs::Controls::item_of))]
    final fn item(self, payload: &[u8]) -> Result<Setting, Refusal>
        ensures { item_told result ≡ comes_to self payload.now }
    {
        let value = Self::value(payload);
        self.check(value)?;
        Ok(Self::setting(value))
    }
}
