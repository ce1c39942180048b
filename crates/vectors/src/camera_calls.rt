// Calls of the camera.
use crate::buffers::{LENT, LENT_ANSWERS, LONGEST_BATCH, first};
use crate::words::{Bytes, lay, octet, place, word};
use crate::{print, record};
use camera::Camera;
use request::Done;
use wire::Refusal;

// A call that writes nothing.
fn changed(camera: Camera, next: Result<Camera, Refusal>) -> Camera {
    print::done(camera, next.map(|next| Done { count: 0, next }))
}

// A request: room for the reply, setup, payload.
fn request(camera: Camera, call: &[u8]) -> Camera {
    let setup = Bytes::<LENT>::of(word(call, 2));
    let payload = Bytes::<LENT>::of(word(call, 3));
    let mut room = [0xEEu8; LENT];
    let reply = first(&mut room, usize::from(octet(word(call, 1), 0)));
    let done = camera.request(setup.as_slice(), payload.as_slice(), reply);
    let next = print::done(camera, done);
    print::bytes(reply);
    next
}

// Writing a snapshot: room for it.
fn write(camera: Camera, call: &[u8]) -> Camera {
    let mut room = [0xEEu8; LENT];
    let out = first(&mut room, usize::from(octet(word(call, 1), 0)));
    let written = camera.write(out);
    print::code(wire::status(written));
    print::count(written.unwrap_or(0));
    print::bytes(out);
    camera
}

// Loading a snapshot.
fn load(camera: Camera, call: &[u8]) -> Camera {
    let snapshot = Bytes::<LENT>::of(word(call, 1));
    changed(camera, camera.load(snapshot.as_slice()))
}

// A batch: room for its answers, its requests, and how long it is with zeros behind them, if that is more.
fn run_batch(camera: Camera, call: &[u8]) -> Camera {
    let mut bytes = [0; LONGEST_BATCH];
    let given = lay(word(call, 2), &mut bytes);
    let len = given.max(place(word(call, 3)));
    let mut room = [0xEEu8; LENT_ANSWERS];
    let out = first(&mut room, place(word(call, 1)));
    let done = batch::run(camera, wire::head(&bytes, len), out);
    let next = print::done(camera, done);
    print::bytes(out);
    next
}

// The number that the sensor is handed.
fn sensor(camera: Camera) -> Camera {
    let sensed = camera.sensor();
    print::code(wire::status(sensed));
    print::signed(sensed.unwrap_or(0));
    camera
}

// A fresh camera, and whether its profile is valid.
fn fresh(call: &[u8]) -> Camera {
    let camera = record::fresh(call);
    if camera.profile.valid() {
        printing::text(b" = valid");
    } else {
        printing::text(b" = not valid");
    }
    camera
}

// camera, hold, request ROOM SETUP PAYLOAD, flag ON (the streaming flag), load SNAPSHOT, write ROOM, sensor, batch ROOM REQUESTS [LENGTH]
// (zeros behind them up to the length).
pub(crate) fn run(camera: Camera, call: &[u8]) -> Camera {
    match word(call, 0) {
        b"camera" => fresh(call),
        b"hold" => record::holding(camera, call),
        b"request" => request(camera, call),
        b"flag" => changed(camera, camera.set_streaming(octet(word(call, 1), 0) != 0)),
        b"load" => load(camera, call),
        b"write" => write(camera, call),
        b"sensor" => sensor(camera),
        b"batch" => run_batch(camera, call),
        _ => camera,
    }
}
