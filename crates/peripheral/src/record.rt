// The unit's record: its id and interface, the modes of frame strategy that it supports, and what is set, counted and asked for.
ghost use Rattle.std.specs.Prelude.{◌≡◌, cond};
ghost use Rattle.wire.specs.{Uvc.{malformed_record}, Refusals.{verdict}};
ghost use Rattle.peripheral.specs.Record.{fresh, mode_valid, record_well_formed};

use wire::Refusal;

// `mask` has a bit for each mode that is supported, and `mode` is one of them or 0; `count` is the detector's last.
#[derive(Clone, Copy)]
pub struct Peripheral {
    pub unit: u8,
    pub interface: u8,
    pub mask: u64,
    pub mode: u64,
    pub toggle: u8,
    pub count: u32,
    pub reset: u8,
}

// The most occupants that are counted: the reading's maximum.
pub(crate) const MOST: u32 = 0xFF;

// No mode, or exactly one of those supported.
pub(crate) fn mode_valid(mask: u64, mode: u64) -> bool
    ensures { result ≡ mode_valid mask mode }
{
    mode == 0 || flags::is_one_of(mode, mask)
}

impl Peripheral {
    // A fresh unit: every control at its default, no occupants.
    pub fn fresh(unit: u8, interface: u8, mask: u64) -> Peripheral
        ensures { result ≡ fresh unit interface mask }
    {
        Peripheral {
            unit,
            interface,
            mask,
            mode: 0,
            toggle: 0,
            count: 0,
            reset: 0,
        }
    }

    // Whether calls can leave such a record.
    #[tactic(auto, unfolding(crate::specs::Record::record_well_formed))]
    fn well_formed(self) -> bool
        ensures { result ≡ record_well_formed self }
    {
        mode_valid(self.mask, self.mode)
            && self.toggle <= 1
            && self.count <= MOST
            && self.reset <= 1
    }

    // The test that every call begins with.
    pub(crate) fn check(self) -> Result<(), Refusal>
        ensures { verdict result ≡ cond (record_well_formed self) 0 malformed_record }
    {
        if self.well_formed() {
            Ok(())
        } else {
            Err(Refusal::MalformedRecord)
        }
    }
}
