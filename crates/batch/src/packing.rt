// Where the requests of a batch stand: each is eight setup bytes and, where its type is 0x21, as many bytes of payload as its wLength says.
ghost use Rattle.std.specs.Prelude.{◌≡◌, ◌<◌};
ghost use Rattle.wire.specs.Parts.{PartOf};
ghost use Rattle.batch.specs.Packing.{data_length};

use wire::Part;

// The setup bytes of the request at `at`.
pub(crate) fn setup_at(packed: &[u8], at: usize) -> &[u8]
    ensures { PartOf packed.entry (record { at = at; len = 8 }) result }
{
    wire::part_at(packed, Part { at, len: 8 })
}

// How many bytes of payload stand behind a setup.
pub(crate) fn data_length(setup: &[u8]) -> usize
    ensures { (result ≡ data_length setup.now) × (result < 65536) }
{
    if wire::byte(setup, 0) == 0x21 {
        return request::wlength(setup);
    }
    0
}
