// The words of a line, and the bytes that a word gives in hex.
ghost use Rattle.std.specs.Prelude.{◌<◌, ◌≤◌, length};

// The next place where a byte is c (found) or is another (not found), or the end.
pub(crate) fn until(s: &[u8], at: usize, c: u8, found: bool) -> usize
    ensures behind { at ≤ length s.now → at ≤ result }
    ensures within { result ≤ length s.now }
{
    let rest = wire::tail(s, at);
    let passed = rest.iter().position(|b| (*b == c) == found);
    s.len() - rest.len() + passed.unwrap_or(rest.len())
}

// What stands behind the first c and the blanks after it.
pub(crate) fn behind(s: &[u8], c: u8) -> &[u8] {
    let at = until(s, 0, c, true).saturating_add(1);
    wire::tail(s, until(s, at, b' ', false))
}

// Word k, or nothing.
pub(crate) fn word(s: &[u8], k: usize) -> &[u8] {
    let mut at = 0;
    for _ in 0..k {
        at = until(s, until(s, at, b' ', true), b' ', false);
    }
    let rest = wire::tail(s, at);
    wire::head(rest, until(rest, 0, b' ', true))
}

fn digit(c: u8) -> u8
    ensures { result < 16 }
{
    match c {
        b'0'..=b'9' => c - b'0',
        b'a'..=b'f' => c - b'a' + 10,
        _ => 0,
    }
}

// Byte i of a word in hex, 0 past its end.
pub(crate) fn octet(s: &[u8], i: usize) -> u8 {
    match s.chunks_exact(2).nth(i) {
        None => 0,
        Some(pair) => octet_of(pair[0], pair[1]),
    }
}

// The byte of two digits.
fn octet_of(high: u8, low: u8) -> u8 {
    16 * digit(high) + digit(low)
}

// The number of the four bytes from i on.
pub(crate) fn number(s: &[u8], i: u8) -> u32 {
    let at = usize::from(i);
    let b = [
        octet(s, at),
        octet(s, at + 1),
        octet(s, at + 2),
        octet(s, at + 3),
    ];
    wire::le32(&b, 0)
}

// A place, a length or an index: the number of a word's first eight bytes.
pub(crate) fn place(s: &[u8]) -> usize {
    number(s, 4) as usize * 0x1_0000_0000 + number(s, 0) as usize
}

// Lays the bytes that a word gives in hex over the start of `places`, as far as there are so many, and says how many.
pub(crate) fn lay(word: &[u8], places: &mut [u8]) -> usize {
    for (place, pair) in places.iter_mut().zip(word.chunks_exact(2)) {
        *place = octet_of(pair[0], pair[1]);
    }
    places.len().min(word.len() / 2)
}

// The bytes that a word gives in hex, as far as there are N places, and how many; zeros behind them. It is handed back by value, so
// the rows of 64 KiB and more have an array of their own, which `lay` fills in place.
#[derive(Clone, Copy)]
pub(crate) struct Bytes<const N: usize> {
    places: [u8; N],
    len: usize,
}

impl<const N: usize> Bytes<N> {
    pub(crate) fn of(word: &[u8]) -> Bytes<N> {
        let mut places = [0; N];
        let len = lay(word, &mut places);
        Bytes { places, len }
    }

    pub(crate) fn places(&self) -> [u8; N] {
        self.places
    }

    pub(crate) fn as_slice(&self) -> &[u8] {
        wire::head(&self.places, self.len)
    }
}
