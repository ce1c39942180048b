// Whole batches, request #102 of document 02: the start-up host's requests packed one after another, and their answers in order.
// A batch comes to what its requests come to one by one, each with ample room for its reply. It is refused whole, with nothing changed,
// where the record is malformed, where it stops inside a request, and where there is no room for all its answers: their length goes by
// the profile and the bytes alone, so it is known before the first is written.
#![tactic(auto)]

mod measuring;
mod packing;
mod refusal;
mod running;

pub use refusal::Refusal;
pub use running::{ANSWER_ROOM, run};
