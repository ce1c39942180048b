// The camera record: the profile, the streaming flag, and the settings.
ghost use Rattle.std.specs.Prelude.{◌≡◌};
ghost use Rattle.camera.specs.Record.{fresh};

use profile::Profile;
use settings::Settings;

#[derive(Clone, Copy)]
pub struct Camera {
    pub profile: Profile,
    pub streaming: bool,
    pub settings: Settings,
}

impl Camera {
    // A fresh camera of a profile, with no settings.
    pub fn fresh(profile: Profile, streaming: bool) -> Camera
        ensures { result ≡ fresh profile streaming }
    {
        Camera {
            profile,
            streaming,
            settings: Settings::none(),
        }
    }
}
