// Whether settings keep their rules, control by control.
ghost use Rattle.std.specs.Prelude.{◌≡◌};
ghost use Rattle.profile.specs.Profile.{profile_refusal};
ghost use Rattle.settings.specs.Kept.{kept_by, settings_well_formed};

use crate::settings::Settings;
use controls::Limits;
use profile::Profile;
use request::has_control;
use wire::selectors;

// A control's setting by its limits.
#[tactic(auto, using(crate::proofs::Laws::Kept::accepted), unfolding(crate::specs::Kept::kept_by))]
fn kept<L: Limits>(p: Profile, selector: u8, limits: L, held: Option<L::Value>) -> bool
    ensures { result ≡ kept_by (profile_refusal p selector) (L.refusal limits) held }
{
    held.is_none_or(|value| p.check(selector).is_ok() && limits.check(value).is_ok())
}

impl Settings {
    // The profile is valid, and every setting that is held keeps its own SET's rules.
    #[tactic(auto, using(crate::proofs::Laws::Kept::formed_controls))]
    pub fn well_formed(self, p: Profile) -> bool
        ensures { result ≡ settings_well_formed p self }
    {
        p.valid()
            && kept(p, selectors::EV, p.ev, self.ev)
            && entries::kept(p.face, has_control(p.controls, selectors::FACE), self.face)
            && kept(p, selectors::METADATA, p.metadata, self.metadata)
            && kept(p, selectors::HDR, p.hdr, self.hdr)
            && kept(p, selectors::THROTTLE, p.throttle, self.throttle)
    }
}
