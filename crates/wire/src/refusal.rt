// Why a call is refused: USB Video Class 1.5's request error codes, and document 01's own numbers beside them.
ghost use Rattle.std.specs.Prelude.{◌≡◌, ℕ, eqb, false};
ghost use Rattle.wire.specs.Refusals.{code_of, is_refused, number_by};

// UVC's names for bRequestErrorCode; those from 0x20 to 0x22 are 01's.
#[derive(Clone, Copy, PartialEq, Eq)]
pub enum Refusal {
    WrongState = 0x02,
    OutOfRange = 0x04,
    InvalidUnit = 0x05,
    InvalidControl = 0x06,
    InvalidRequest = 0x07,
    InvalidValue = 0x08,
    // a lent buffer too short
    NoRoom = 0x20,
    // a record that is not well formed
    MalformedRecord = 0x21,
    // a snapshot with a form fault
    MalformedSnapshot = 0x22,
    // a setup or a payload of a wrong length
    Unknown = 0xFF,
}

// What a call can be refused for: each has a number of the papers, and none that of acceptance.
pub trait Numbered: Copy {
    ghost number: { Self → ℕ };

    fn code(self) -> u8
        ensures { result ≡ number self };

    ghost refuses: { (e : Self) → eqb (number e) 0 ≡ false };
}

impl Numbered for Refusal {
    ghost number = { code_of };

    fn code(self) -> u8 {
        self as u8
    }

    ghost refuses = { is_refused };
}

// The number that 01 has for what a call comes to: 0, or its refusal's.
pub fn status<T: Copy, E: Numbered>(outcome: Result<T, E>) -> u8
    ensures { result ≡ number_by E.number outcome }
{
    match outcome {
        Ok(_) => 0,
        Err(refusal) => refusal.code(),
    }
}
