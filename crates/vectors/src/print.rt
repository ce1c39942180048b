// What a row's answer is written with: a blank, and behind it the answer.
use printing::{Case, text};
use request::Done;
use wire::Numbered;

// A number in so many digits of hex.
pub(crate) fn hex(n: u64, digits: usize) {
    text(b" ");
    printing::hex(n, digits, Case::Lower);
}

// Document 01's number, with which an answer begins.
pub(crate) fn code(n: u8) {
    text(b" =");
    hex(u64::from(n), 2);
}

pub(crate) fn count(n: usize) {
    text(b" ");
    printing::decimal(n as u64);
}

// A unit's call: number and count. The next record is handed on, which after a refusal is the one that came in.
pub(crate) fn done<R: Copy, E: Numbered>(came: R, done: Result<Done<R>, E>) -> R {
    code(wire::status(done));
    let Done { count: bytes, next } = done.unwrap_or(Done {
        count: 0,
        next: came,
    });
    count(bytes);
    next
}

pub(crate) fn signed(value: i32) {
    text(b" ");
    printing::signed(value);
}

// The bytes of a lent buffer.
pub(crate) fn bytes(s: &[u8]) {
    if !s.is_empty() {
        text(b" ");
        printing::bytes(s, b"", Case::Lower);
    }
}

// A part that is handed back, `-` for no bytes.
pub(crate) fn part(s: &[u8]) {
    if s.is_empty() {
        text(b" -");
    } else {
        bytes(s);
    }
}
