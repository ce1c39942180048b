// What the types of a camera record say of one that a program holds: flags are of a byte, there are 15 face places, and a metadata maximum
// has four bytes; and with that the theorems that ask for it.
ghost use mathlib.Core.{Path.{◌≡◌}, Option.{some}};
ghost use Rattle.std.specs.Prelude.{ℕ, ◌<◌, ◌^◌, length, get_or};
ghost use Rattle.wire.specs.Endpoints.{places};
ghost use Rattle.controls.specs.declared.Setting.{Setting};
ghost use Rattle.settings.specs.Held.{ev_held};
ghost use Rattle.demands.specs.{Cameras.{setting_flags}, Programs.{OfProgram}};

use camera::Camera;
use controls::EvSetting;
use wire::endpoints;

fn ev_typed(held: Option<EvSetting>)
    ensures { (s : Setting) → ev_held held ≡ some s → setting_flags s < 2 ^ 8 }
{
    if let Some(s) = held {
        let _flags = s.flags;
    }
}

fn face_typed(held: &[u8])
    ensures { (i : ℕ) → get_or held.now i 0 < 2 ^ 8 }
{
    let _ = wire::byte(held, 0);
}

fn places_typed(held: [u8; endpoints::PLACES])
    ensures { length held ≡ places }
{}

fn maximum_typed(n: u32)
    ensures { n < 2 ^ 32 }
{}

// Nothing is done: what is promised holds of every camera that a program can hand over.
pub fn of_program(camera: Camera)
    ensures { OfProgram camera }
{
    ev_typed(camera.settings.ev);
    face_typed(&camera.settings.face);
    places_typed(camera.settings.face);
    maximum_typed(camera.profile.metadata.maximum);
}
