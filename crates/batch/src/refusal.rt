// Why a batch is refused whole.
ghost use Rattle.batch.specs.Refusals.{code_of, is_refused};

use wire::Numbered;

#[derive(Clone, Copy, PartialEq, Eq)]
pub enum Refusal {
    // its answers have no room
    NoRoom = 0x20,
    // a record that is not well formed
    MalformedRecord = 0x21,
    // it stops inside a request
    Cut = 0x48,
}

impl Numbered for Refusal {
    ghost number = { code_of };

    fn code(self) -> u8 {
        self as u8
    }

    ghost refuses = { is_refused };
}
