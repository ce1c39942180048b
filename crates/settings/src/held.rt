// The settings that are held, key by key, as a snapshot's records have them.
ghost use Rattle.std.specs.Prelude.{◌≡◌};
ghost use Rattle.settings.specs.Held.{settings_held, held_setting};

use crate::settings::Settings;
use controls::Setting;
use wire::endpoints;

impl Settings {
    // The setting held of a key, or none.
    #[tactic(auto, unfolding(crate::specs::Held::settings_held))]
    pub fn held(&self, key: usize) -> Option<Setting>
        ensures { result ≡ held_setting (settings_held self.now key) }
    {
        match key {
            snapshot::EV_KEY => Some(Setting::Ev(self.ev?)),
            1..=endpoints::PLACES => {
                let flags = self.face[key - 1];
                let address = endpoints::FIRST + (key - 1) as u8;
                (flags != 0).then_some(Setting::Face { address, flags })
            }
            snapshot::METADATA_KEY => Some(Setting::Metadata(self.metadata?)),
            snapshot::HDR_KEY => Some(Setting::Hdr(self.hdr?)),
            snapshot::THROTTLE_KEY => Some(Setting::Throttle(self.throttle?)),
            _ => None,
        }
    }
}
