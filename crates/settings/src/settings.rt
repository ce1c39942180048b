// The settings of the five controls, of face authentication one for each endpoint: the last that was accepted, or none.
ghost use Rattle.std.specs.Prelude.{◌≡◌};
ghost use Rattle.settings.specs.Settings.{no_settings, put};

use controls::{EvSetting, Setting, ThrottleSetting};
use wire::endpoints;

// Face settings stand by address, that of 0x81 first: the flag chosen, or 0 for none.
#[derive(Clone, Copy)]
pub struct Settings {
    pub ev: Option<EvSetting>,
    pub face: [u8; endpoints::PLACES],
    pub metadata: Option<u32>,
    pub hdr: Option<u32>,
    pub throttle: Option<ThrottleSetting>,
}

impl Settings {
    #[tactic(auto, unfolding(crate::specs::Settings::no_settings))]
    pub fn none() -> Settings
        ensures { result ≡ no_settings }
    {
        Settings {
            ev: None,
            face: [0; endpoints::PLACES],
            metadata: None,
            hdr: None,
            throttle: None,
        }
    }

    // The settings with one more.
    #[tactic(auto, unfolding(crate::specs::Settings::put))]
    pub fn put(self, s: Setting) -> Settings
        ensures { result ≡ put self s }
    {
        match s {
            Setting::Ev(e) => Settings {
                ev: Some(e),
                ..self
            },
            Setting::Face { address, flags } => Settings {
                face: entries::put(self.face, address, flags),
                ..self
            },
            Setting::Metadata(n) => Settings {
                metadata: Some(n),
                ..self
            },
            Setting::Hdr(n) => Settings {
                hdr: Some(n),
                ..self
            },
            Setting::Throttle(t) => Settings {
                throttle: Some(t),
                ..self
            },
        }
    }
}
