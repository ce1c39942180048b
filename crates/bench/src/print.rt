// Cells of a table. A cell is filled up with spaces to its width; the last of a line has width 0.
use camera::Camera;
use printing::{Case, fill, text};

pub(crate) fn end() {
    text(b"\n");
}

pub(crate) fn label(s: &[u8], width: usize) {
    fill(text(s), width);
}

// Bytes in hex, or a dash for none.
pub(crate) fn bytes(s: &[u8], width: usize) {
    if s.is_empty() {
        label(b"-", width);
    } else {
        fill(printing::bytes(s, b" ", Case::Upper), width);
    }
}

// A number of document 01.
pub(crate) fn code(n: u8, width: usize) {
    let prefix = text(b"0x");
    fill(prefix + printing::hex(u64::from(n), 2, Case::Upper), width);
}

pub(crate) fn number(n: usize, width: usize) {
    fill(printing::decimal(n as u64), width);
}

// A metadata id, and its mark.
pub(crate) fn id(n: u32, unknown: bool, width: usize) {
    let digits = printing::decimal(u64::from(n));
    let mark = if unknown { text(b" unknown") } else { 0 };
    fill(digits + mark, width);
}

pub(crate) fn signed(v: i32, width: usize) {
    fill(printing::signed(v), width);
}

// What the sensor is handed.
pub(crate) fn sensor(camera: Camera, width: usize) {
    signed(camera.sensor().unwrap_or(0), width);
}

// UTF-16 text, of which the characters here are all ASCII, without its zero bytes.
pub(crate) fn utf16(s: &[u8], width: usize) {
    let mut written: usize = 0;
    for b in s {
        if *b != 0 {
            written = written.saturating_add(text(&[*b]));
        }
    }
    fill(written, width);
}
