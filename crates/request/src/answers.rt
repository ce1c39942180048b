// A GET's full answer, before it is cut to wLength.
ghost use Rattle.std.specs.Prelude.{◌≡◌, take};
ghost use Rattle.request.specs.Answers.{packed, answer_by};

use wire::{endpoints, uvc};

// The longest answer: a count and an entry of eight bytes for each endpoint that a profile may list.
pub const LONGEST_ANSWER: usize = 1 + 8 * endpoints::LIMIT;

// The first len bytes are the answer, the others 0.
#[derive(Clone, Copy)]
pub struct Answer {
    pub bytes: [u8; LONGEST_ANSWER],
    pub len: usize,
}

impl Answer {
    // The bytes that are the answer.
    pub fn as_slice(&self) -> &[u8]
        ensures { result.now ≡ take self.now.len self.now.bytes }
    {
        wire::head(&self.bytes, self.len)
    }
}

#[tactic(auto, unfolding(crate::specs::Answers::packed))]
pub(crate) fn pack(answer: &[u8]) -> Answer
    ensures { result ≡ packed answer.now }
{
    let mut bytes = [0u8; LONGEST_ANSWER];
    wire::copy(&mut bytes, 0, answer);
    let len = answer.len().min(LONGEST_ANSWER);
    Answer { bytes, len }
}

// LEN and INFO by themselves; every other request is answered by the control's bytes.
#[tactic(auto, unfolding(crate::specs::Answers::answer_by))]
pub fn answer_by(code: u8, len: usize, info: u8, value: &[u8]) -> Answer
    ensures { result ≡ packed (answer_by code len info value.now) }
{
    match code {
        uvc::GET_LEN => pack(&wire::bytes::<2>(len as u64)),
        uvc::GET_INFO => pack(&[info]),
        _ => pack(value),
    }
}
