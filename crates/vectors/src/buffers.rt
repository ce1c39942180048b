// Buffers to lend.

// As long as any that a row asks for: a room is one byte of the row, and neither an answer nor a snapshot is longer than that says.
pub(crate) const LENT: usize = 256;

// A batch with the longest payload and some requests beside it, and the room for its answers.
pub(crate) const LONGEST_BATCH: usize = 66560;

pub(crate) const LENT_ANSWERS: usize = 2048;

// The first n bytes, or all where there are fewer.
pub(crate) fn first(buf: &mut [u8], n: usize) -> &mut [u8] {
    if buf.len() < n {
        return buf;
    }
    &mut buf[..n]
}
