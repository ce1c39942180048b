// Printing to standard output: text, numbers, bytes in hex, and spaces up to a column.
// Each function answers how many columns it prints, a byte a column, so that a table's cells can be filled up.
// That number is all that is promised. What then stands on the screen is outside: of a write the logic knows how many bytes the C
// library took and not which, and a write that fails is passed over.
#![tactic(auto)]

ghost use Rattle.std.specs.Prelude.{◌≡◌, ◌+◌, ◌-◌, ◌*◌, ◌≤◌, min, length};
ghost use Rattle.printing.specs.Printing.{decimal_columns, signed_columns, hex_columns, bytes_columns};

const STDOUT: i32 = 1;

// The letters of hex digits.
#[derive(Clone, Copy)]
pub enum Case {
    Lower,
    Upper,
}

pub fn text(s: &[u8]) -> usize
    ensures { result ≡ length s.now }
{
    io::write_all(STDOUT, s);
    s.len()
}

// Spaces behind `from` columns, up to `to`.
pub fn fill(from: usize, to: usize) -> usize
    ensures { result ≡ to - from }
{
    let mut columns = 0;
    for _ in from..to {
        columns += text(b" ");
    }
    columns
}

#[tactic(auto, using(crate::proofs::Laws::Digits::decimal_counted, crate::proofs::Laws::Digits::decimal_most))]
pub fn decimal(n: u64) -> usize
    ensures { (result ≡ decimal_columns n) × (result ≤ 20) }
{
    let mut digits = [0; 20];
    let k = io::decimal(n, &mut digits);
    text(&digits[..k])
}

// In decimal, a negative number behind a minus sign.
#[tactic(auto, using(crate::proofs::Laws::Signs::below_zero, crate::proofs::Laws::Signs::not_below))]
pub fn signed(v: i32) -> usize
    ensures { result ≡ signed_columns v }
{
    let n = u64::from(v.unsigned_abs());
    if v < 0 {
        return text(b"-") + decimal(n);
    }
    decimal(n)
}

// In hex, with zeros in front up to so many digits; more than 16 count as 16.
pub fn hex(n: u64, digits: usize, case: Case) -> usize
    ensures { (result ≡ hex_columns n digits) × (result ≤ 16) }
{
    let mut out = [0; 16];
    let k = io::hex(n, digits, &mut out);
    if matches!(case, Case::Upper) {
        out.make_ascii_uppercase();
    }
    text(&out[..k])
}

#[tactic(auto, using(crate::proofs::Laws::Digits::byte_two))]
fn pair(byte: u8, case: Case) -> usize
    ensures { result ≡ 2 }
{
    hex(u64::from(byte), 2, case)
}

// What stands in front of byte i.
fn gap(i: usize, between: &[u8]) -> usize
    ensures { result ≡ min i 1 * length between.now }
{
    if i == 0 { 0 } else { text(between) }
}

// Each byte in two hex digits, with a text between two bytes.
#[tactic(auto, using(crate::proofs::Laws::Bytes::one_more), unfolding(crate::specs::Printing::bytes_columns))]
pub fn bytes(s: &[u8], between: &[u8], case: Case) -> usize
    ensures { result ≡ bytes_columns (length s.now) (length between.now) }
{
    let mut columns: usize = 0;
    for (i, byte) in s.iter().enumerate() {
        columns = columns.saturating_add(gap(i, between));
        columns = columns.saturating_add(pair(*byte, case));
    }
    columns
}
