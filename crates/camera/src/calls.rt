// The calls that need nothing but the record.
ghost use Rattle.std.specs.Prelude.{◌≡◌};
ghost use Rattle.wire.specs.Refusals.{verdict};
ghost use Rattle.camera.specs.{Outcomes.{of_change, of_sensing}, Calls.{record_code, streamed, sensed}};

use crate::record::Camera;
use wire::Refusal;

impl Camera {
    // The test that every call begins with.
    pub(crate) fn check(self) -> Result<(), Refusal>
        ensures { verdict result ≡ record_code self }
    {
        if self.settings.well_formed(self.profile) {
            Ok(())
        } else {
            Err(Refusal::MalformedRecord)
        }
    }

    // The stream has started or stopped, 01's streaming notice. Settings stay.
    #[tactic(auto, using(crate::proofs::Laws::Record::changing))]
    pub fn set_streaming(self, on: bool) -> Result<Camera, Refusal>
        ensures { of_change self result ≡ streamed self on }
    {
        self.check()?;
        Ok(Camera {
            streaming: on,
            ..self
        })
    }

    // The number that the sensor is handed, in its units.
    #[tactic(auto, using(crate::proofs::Laws::Record::changing))]
    pub fn sensor(self) -> Result<i32, Refusal>
        ensures { of_sensing self result ≡ sensed self }
    {
        self.check()
            .map(|()| self.profile.ev.sensor_value(self.settings.ev))
    }
}
