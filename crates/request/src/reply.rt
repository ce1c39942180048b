// A GET's answer goes to the start of the reply buffer, cut to wLength; and what a request that a unit accepts hands back.
ghost use Rattle.std.specs.Prelude.{◌≡◌, length};
ghost use Rattle.request.specs.Reply.{sent_told, sent_of, reply_of};

use wire::Refusal;

// How many bytes of reply were written, and the unit's record that follows.
#[derive(Clone, Copy)]
pub struct Done<R> {
    pub count: usize,
    pub next: R,
}

// The first wLength bytes of the answer, or all of it, where the buffer has room; else test 9 refuses. How many they are.
#[tactic(auto, unfolding(crate::specs::Reply::sent_of, crate::specs::Reply::reply_of))]
pub fn send(answer: &[u8], wlength: usize, reply: &mut [u8]) -> Result<usize, Refusal>
    ensures value { sent_told result ≡ sent_of answer.now wlength (length reply.old) }
    ensures reply_after { reply.new ≡ reply_of answer.now wlength reply.old }
{
    let count = wlength.min(answer.len());
    if reply.len() < count {
        return Err(Refusal::NoRoom);
    }
    reply[..count].copy_from_slice(&answer[..count]);
    Ok(count)
}
