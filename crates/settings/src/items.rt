// What a SET's payload comes to: the first refusal of its items, or the settings with all of them.
ghost use Rattle.std.specs.Prelude.{◌≡◌};
ghost use Rattle.settings.specs.Items.{set_told, set_taken};

use crate::settings::Settings;
use profile::Profile;
use wire::{Refusal, selectors};

impl Settings {
    // SET's value tests, and its settings: all of them or none.
    #[tactic(auto, using(crate::proofs::Laws::Items::set_by))]
    pub fn set(self, p: Profile, selector: u8, payload: &[u8]) -> Result<Settings, Refusal>
        ensures { set_told self result ≡ set_taken p self selector payload.now }
    {
        if selector == selectors::FACE {
            let face = entries::take(p.face, self.face, payload)?;
            return Ok(Settings { face, ..self });
        }
        Ok(self.put(p.item(selector, payload)?))
    }
}
