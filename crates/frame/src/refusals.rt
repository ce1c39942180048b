// What document 01 refuses of frame metadata, with its numbers.
ghost use Rattle.frame.specs.Answers.{code_of, is_refused};

use wire::Numbered;

#[derive(Clone, Copy, PartialEq, Eq)]
pub enum Refusal {
    // Fewer than 8 bytes for an item's header, or a size past the end of the block.
    Truncated = 0x40,
    // An id that the reader, or the writer, does not take.
    InvalidId = 0x41,
    // A size that does not hold the item's own header.
    ShortSize = 0x42,
    // A block over 65,535 bytes, read or to be written.
    TooLong = 0x43,
    NoItem = 0x44,
    // A lent buffer too short.
    NoRoom = 0x20,
}

impl Numbered for Refusal {
    ghost number = { code_of };

    fn code(self) -> u8 {
        self as u8
    }

    ghost refuses = { is_refused };
}
