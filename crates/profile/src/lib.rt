// A camera's profile: its unit and interface, which of the five controls it has, and their limits. Document 01, "Profile and camera record"
// and "The five controls".
// What goes by the profile alone stands here: which profiles keep their rules, what the tests of a request go by, and what an item of a SET
// comes to. `settings` has the settings that a camera of a profile holds.
#![tactic(auto)]

ghost use mathlib.Core.{Path.{◌≡◌}, Bool.{cond}};
ghost use Rattle.std.specs.Prelude.{◌≤◌};
ghost use Rattle.wire.specs.Refusals.{verdict};
ghost use Rattle.controls.specs.Controls.{item_told};
ghost use Rattle.request.specs.Table.{has_control};
ghost use Rattle.profile.specs.Items.{profile_item};
ghost use Rattle.profile.specs.Profile.{has, presence_valid, profile_valid, is_settable, profile_refusal, set_length, extension_unit};
ghost use Rattle.profile.specs.Profile.{payload_length, profile_control};

use controls::{OneValue, Setting};
use exposure::EvLimits;
use face::FaceLimits;
use hdr::HdrLimits;
use metadata::MetadataLimits;
use request::{Control, Unit};
use throttle::ThrottleLimits;
use wire::{Refusal, selectors};

// `controls` has bit s - 1 for the control of selector s, as bmControls has.
#[derive(Clone, Copy)]
pub struct Profile {
    pub unit: u8,
    pub interface: u8,
    pub controls: u32,
    pub ev: EvLimits,
    pub face: FaceLimits,
    pub metadata: MetadataLimits,
    pub hdr: HdrLimits,
    pub throttle: ThrottleLimits,
}

fn has(p: Profile, selector: u8) -> bool
    ensures { result ≡ has p selector }
{
    request::has_control(p.controls, selector)
}

// The controls' bits, of which that of selector s is bit s - 1.
const EV_BIT: u32 = 1 << (selectors::EV - 1);

const FACE_BIT: u32 = 1 << (selectors::FACE - 1);

const METADATA_BIT: u32 = 1 << (selectors::METADATA - 1);

const HDR_BIT: u32 = 1 << (selectors::HDR - 1);

const THROTTLE_BIT: u32 = 1 << (selectors::THROTTLE - 1);

// What the bit of a selector adds to a number.
fn bit_at(bits: u32, selector: u8, worth: u32) -> u32
    ensures { (result ≡ cond (has_control bits selector) worth 0) × (result ≤ worth) }
{
    if request::has_control(bits, selector) {
        worth
    } else {
        0
    }
}

// Only the five controls have bits: the number is the sum of theirs.
#[tactic(auto, unfolding(crate::specs::Profile::presence_valid))]
fn presence_valid(bits: u32) -> bool
    ensures { result ≡ presence_valid bits }
{
    bits == bit_at(bits, selectors::EV, EV_BIT)
        + bit_at(bits, selectors::FACE, FACE_BIT)
        + bit_at(bits, selectors::METADATA, METADATA_BIT)
        + bit_at(bits, selectors::HDR, HDR_BIT)
        + bit_at(bits, selectors::THROTTLE, THROTTLE_BIT)
}

fn is_settable(p: Profile, selector: u8) -> bool
    ensures { result ≡ is_settable p selector }
{
    selector != selectors::METADATA || p.metadata.writable
}

// The length that a SET of this payload must have.
fn set_length(p: Profile, selector: u8, payload: &[u8]) -> usize
    ensures { result ≡ set_length p selector payload.now }
{
    match selector {
        selectors::FACE => entries::set_length(p.face, payload),
        _ => p.payload_length(selector),
    }
}

impl Profile {
    // Whether the profile keeps its rules. Limits of controls that it does not have are not looked at.
    #[tactic(auto, using(crate::proofs::Laws::Profile::all_five), unfolding(crate::specs::Profile::profile_valid_under))]
    pub fn valid(self) -> bool
        ensures { result ≡ profile_valid self }
    {
        presence_valid(self.controls)
            && (!has(self, selectors::EV) || self.ev.valid())
            && (!has(self, selectors::FACE) || face::valid(self.face))
            && (!has(self, selectors::METADATA) || self.metadata.valid())
            && (!has(self, selectors::THROTTLE) || self.throttle.valid())
    }

    // What a request's tests 2 to 6 go by.
    #[tactic(auto, unfolding(crate::specs::Profile::extension_unit))]
    pub fn extension_unit(self) -> Unit
        ensures { result ≡ extension_unit self }
    {
        Unit {
            unit: self.unit,
            interface: self.interface,
            present: self.controls,
        }
    }

    #[tactic(auto, unfolding(crate::specs::Profile::profile_control))]
    pub fn control(self, selector: u8, payload: &[u8]) -> Control
        ensures { result ≡ profile_control self selector payload.now }
    {
        Control {
            settable: is_settable(self, selector),
            len: set_length(self, selector, payload),
        }
    }

    // The length of a control's payload, of face authentication the longest; LEN's number.
    pub fn payload_length(self, selector: u8) -> usize
        ensures { result ≡ payload_length self selector }
    {
        match selector {
            selectors::EV => 11,
            selectors::FACE => 1 + 8 * face::endpoints_of(self.face),
            selectors::METADATA | selectors::HDR => 4,
            _ => 20,
        }
    }

    // A SET that is refused whatever its payload: the control is absent, or read only.
    #[tactic(auto, unfolding(crate::specs::Profile::profile_refusal))]
    pub fn check(self, selector: u8) -> Result<(), Refusal>
        ensures { verdict result ≡ profile_refusal self selector }
    {
        if !has(self, selector) {
            return Err(Refusal::InvalidControl);
        }
        if !is_settable(self, selector) {
            return Err(Refusal::InvalidRequest);
        }
        Ok(())
    }

    // The first item of a SET's payload, and the only one but of face authentication.
    #[tactic(auto, unfolding(crate::specs::Items::profile_item))]
    pub fn item(self, selector: u8, payload: &[u8]) -> Result<Setting, Refusal>
        ensures { item_told result ≡ profile_item self selector payload.now 0 }
    {
        match selector {
            selectors::EV => self.ev.item(payload),
            selectors::FACE => entries::item(self.face, payload),
            selectors::METADATA => self.metadata.item(payload),
            selectors::HDR => self.hdr.item(payload),
            _ => self.throttle.item(payload),
        }
    }
}
