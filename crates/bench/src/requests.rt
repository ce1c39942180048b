// Requests to the bench camera, a line for what is sent and answered and a line for the snapshot then.
use crate::device::bench;
use crate::print;
use camera::Camera;
use printing::{fill, text};
use request::{Done, LONGEST_ANSWER};
use snapshot::LONGEST_WRITTEN;

fn header(title: &[u8]) {
    text(title);
    text(
        b"request           setup                    payload                              number  count  sensor    reply\n",
    );
}

fn snapshot(c: Camera) {
    let mut out = [0u8; LONGEST_WRITTEN];
    let count = c.write(&mut out).unwrap_or(0);
    print::label(b"  snapshot", 18);
    print::bytes(wire::head(&out, count), 0);
    print::end();
}

// The bytes of a payload behind the twelve that its column has room for.
fn rest(payload: &[u8]) {
    if 12 < payload.len() {
        fill(0, 43);
        print::bytes(wire::tail(payload, 12), 0);
        print::end();
    }
}

fn send(c: Camera, name: &[u8], setup: &[u8], payload: &[u8]) -> Camera {
    print::label(name, 18);
    print::bytes(setup, 25);
    print::bytes(wire::head(payload, 12), 37);
    let mut reply = [0u8; LONGEST_ANSWER];
    let done = c.request(setup, payload, &mut reply);
    let Done { count, next } = done.unwrap_or(Done { count: 0, next: c });
    print::code(wire::status(done), 8);
    print::number(count, 7);
    print::sensor(next, 10);
    print::bytes(wire::head(&reply, count), 0);
    print::end();
    rest(payload);
    snapshot(next);
    next
}

// SET_CUR and GET_CUR of a selector, of unit 4 on interface 0, with a wLength below 256.
fn set(c: Camera, name: &[u8], selector: u8, wlength: u8, payload: &[u8]) -> Camera {
    let setup = [0x21, 0x01, 0, selector, 0, 4, wlength, 0];
    send(c, name, &setup, payload)
}

fn get(c: Camera, name: &[u8], selector: u8, wlength: u8) -> Camera {
    let setup = [0xA1, 0x81, 0, selector, 0, 4, wlength, 0];
    send(c, name, &setup, b"")
}

// The lowest byte of the flags, that of the value, and each of the value's upper three.
fn ev(c: Camera, name: &[u8], flags: u8, value: u8, upper: u8) -> Camera {
    let payload = [flags, 0, 0, 0, 0, 0, 0, value, upper, upper, upper];
    set(c, name, 0x03, 11, &payload)
}

fn face(c: Camera, name: &[u8], address: u8, flags: u8) -> Camera {
    let payload = [1, address, flags, 0, 0, 0, 0, 0, 0];
    set(c, name, 0x06, 9, &payload)
}

fn hdr(c: Camera, name: &[u8], mode: u8) -> Camera {
    let payload = [mode, 0, 0, 0];
    set(c, name, 0x0D, 4, &payload)
}

// In mode 1.
fn throttle(c: Camera, name: &[u8], percent: u8) -> Camera {
    let payload = [
        1, 0, 0, 0, percent, 0, 0, 0, 0, 0, 0, 0, 0, 0, 0, 0, 0, 0, 0, 0,
    ];
    set(c, name, 0x0E, 20, &payload)
}

// To a fresh camera.
fn fresh_ev(name: &[u8], flags: u8, value: u8, upper: u8) {
    ev(bench(), name, flags, value, upper);
}

fn fresh_hdr(name: &[u8], mode: u8) {
    hdr(bench(), name, mode);
}

fn fresh_throttle(name: &[u8], percent: u8) {
    throttle(bench(), name, percent);
}

fn ev_rows() {
    fresh_ev(b"EV D1, -3", 0x02, 0xFD, 0xFF);
    fresh_ev(b"EV D1, 8", 0x02, 0x08, 0x00);
    fresh_ev(b"EV D1, 9", 0x02, 0x09, 0x00);
    fresh_ev(b"EV D0 and D4, 0", 0x11, 0x00, 0x00);
    fresh_ev(b"EV D0, -12", 0x01, 0xF4, 0xFF);
    fresh_ev(b"EV D0, -13", 0x01, 0xF3, 0xFF);
}

fn throttle_rows() {
    fresh_throttle(b"throttle 80", 80);
    fresh_throttle(b"throttle 82", 82);
    fresh_throttle(b"throttle 105", 105);
}

pub(crate) fn fresh_rows() {
    header(b"The bench camera, each request to a fresh one\n");
    ev_rows();
    fresh_hdr(b"HDR 2", 2);
    fresh_hdr(b"HDR 3", 3);
    throttle_rows();
    face(bench(), b"face 0x82", 0x82, 0x01);
}

// The first row's request, then HDR 1, and both read back.
pub(crate) fn kept_rows() {
    header(b"\nThe same camera all the way: EV, then HDR, then both read back\n");
    let one = ev(bench(), b"EV D1, -3", 0x02, 0xFD, 0xFF);
    let two = hdr(one, b"HDR 1", 1);
    let three = get(two, b"EV, GET_CUR", 0x03, 11);
    get(three, b"HDR, GET_CUR", 0x0D, 4);
}
