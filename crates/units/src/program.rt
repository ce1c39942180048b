// What the types of a unit's record say of one that a program holds: ids are bytes, and a mode has eight; and with that the theorem that
// asks for it.
ghost use Rattle.std.specs.Prelude.{◌<◌, ◌^◌};
ghost use Rattle.units.specs.Programs.{OfProgram};

use peripheral::Peripheral;

fn byte_typed(n: u8)
    ensures { n < 2 ^ 8 }
{}

fn mode_typed(n: u64)
    ensures { n < 2 ^ 64 }
{}

// Nothing is done: what is promised holds of every record that a program can hand over.
pub fn of_program(peripheral: Peripheral)
    ensures { OfProgram peripheral }
{
    byte_typed(peripheral.unit);
    byte_typed(peripheral.interface);
    mode_typed(peripheral.mode);
}
