// The notices: the detector's count, and the restart.
ghost use Rattle.std.specs.Prelude.{◌≡◌};
ghost use Rattle.peripheral.specs.{Outcomes.{of_change}, Calls.{counted, restarted}};

use crate::record::{MOST, Peripheral};
use wire::Refusal;

impl Peripheral {
    // The detector has counted so many occupants. It is kept whether the toggle is 1 or 0.
    #[tactic(auto, unfolding(crate::specs::Calls::counted, crate::specs::Calls::count_code))]
    pub fn set_count(self, occupants: u32) -> Result<Peripheral, Refusal>
        ensures { of_change self result ≡ counted self occupants }
    {
        self.check()?;
        if MOST < occupants {
            return Err(Refusal::OutOfRange);
        }
        Ok(Peripheral {
            count: occupants,
            ..self
        })
    }

    // The unit has restarted: no reset is asked for any more, and all else stays.
    #[tactic(auto, unfolding(crate::specs::Calls::restarted, crate::specs::Calls::restart_code))]
    pub fn restart(self) -> Result<Peripheral, Refusal>
        ensures { of_change self result ≡ restarted self }
    {
        self.check()?;
        Ok(Peripheral { reset: 0, ..self })
    }
}
