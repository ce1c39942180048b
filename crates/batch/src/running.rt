// Running a batch: its requests in order, each on the record that the one before left, and their answers one behind the other.
ghost use mathlib.Core.{Path.{◌≡◌}, Bool.{true}};
ghost use Rattle.std.specs.Prelude.{◌+◌, ◌-◌, ◌≤◌, length, drop};
ghost use Rattle.wire.specs.Writes.{overlay};
ghost use Rattle.camera.specs.Requests.{requested, requested_reply};
ghost use Rattle.batch.specs.{Refusals.{of_batch}, Steps.{answered}, Answers.{answer_bytes}, Batch.{batch_code, batched, batched_out}};

use crate::measuring::check;
use crate::packing::{data_length, setup_at};
use crate::refusal::Refusal;
use camera::Camera;
use request::{Done, LONGEST_ANSWER};
use wire::Part;

// No request's answer in a batch is longer: its three bytes and the longest reply.
pub const ANSWER_ROOM: usize = 3 + LONGEST_ANSWER;

// The answer to one request, laid over `out` from `at` on: its number, its count in two bytes, its reply.
fn answer(camera: Camera, setup: &[u8], payload: &[u8], out: &mut [u8], at: usize) -> Done<Camera>
    requires { at + 3 ≤ length out.old }
    ensures value { answered (requested camera setup.now payload.now (length out.old - (at + 3))) result }
    ensures out_after { out.new ≡ overlay out.old at
        (answer_bytes (requested camera setup.now payload.now (length out.old - (at + 3)))
        (requested_reply camera setup.now payload.now (drop (at + 3) out.old))) }
{
    let done = camera.request(setup, payload, &mut out[at + 3..]);
    let code = wire::status(done);
    let Done { count, next } = done.unwrap_or(Done {
        count: 0,
        next: camera,
    });
    let length = wire::bytes::<2>(count as u64);
    wire::copy(out, at, &[code, length[0], length[1]]);
    Done { count, next }
}

// The answers to all requests of a batch that is not refused.
fn answer_all(camera: Camera, packed: &[u8], out: &mut [u8]) -> Done<Camera>
    requires { batch_code camera packed.now (length out.old) ≡ 0 }
    ensures value { of_batch camera (Ok result) ≡ batched camera packed.now (length out.old) }
    ensures out_after { out.new ≡ batched_out camera packed.now out.old }
{
    let mut next = camera;
    let mut count = 0;
    let mut at = 0;
    while at < packed.len() {
        let setup = setup_at(packed, at);
        let len = data_length(setup);
        let payload = wire::part_at(packed, Part { at: at + 8, len });
        let done = answer(next, setup, payload, out, count);
        next = done.next;
        count += 3 + done.count;
        at += 8 + len;
    }
    Done { count, next }
}

// Runs a batch of packed requests; their answers go to the start of `out`.
pub fn run(camera: Camera, packed: &[u8], out: &mut [u8]) -> Result<Done<Camera>, Refusal>
    ensures value { of_batch camera result ≡ batched camera packed.now (length out.old) }
    ensures out_after { out.new ≡ batched_out camera packed.now out.old }
{
    if !camera.settings.well_formed(camera.profile) {
        return Err(Refusal::MalformedRecord);
    }
    check(camera.profile, packed, out.len())?;
    Ok(answer_all(camera, packed, out))
}
