// A batch of #102 of document 02: ten start-up requests to a fresh bench camera, some of them refused. First what it comes to whole, cut
// short and with too little room; then each request with its answer.
use crate::device::bench;
use crate::print;
use batch::ANSWER_ROOM;
use printing::text;
use request::Done;

// GETs of EV, a SET of it, metadata that is absent, a throttle off its step, HDR on, then face and EV read back, and another unit.
fn start_up() -> [u8; 115] {
    *b"\xA1\x86\x00\x03\x00\x04\x01\x00\
        \xA1\x85\x00\x03\x00\x04\x02\x00\
        \xA1\x83\x00\x03\x00\x04\x0B\x00\
        \x21\x01\x00\x03\x00\x04\x0B\x00\x02\x00\x00\x00\x00\x00\x00\xFD\xFF\xFF\xFF\
        \xA1\x81\x00\x09\x00\x04\x04\x00\
        \x21\x01\x00\x0E\x00\x04\x14\x00\x01\x00\x00\x00\x52\x00\x00\x00\x00\x00\x00\x00\x00\x00\x00\x00\x00\x00\x00\x00\
        \x21\x01\x00\x0D\x00\x04\x04\x00\x01\x00\x00\x00\
        \xA1\x81\x00\x06\x00\x04\x09\x00\
        \xA1\x81\x00\x03\x00\x04\x0B\x00\
        \xA1\x81\x00\x03\x00\x05\x0B\x00"
}

// A batch to a fresh camera, with room for as many bytes of answers.
fn send(name: &[u8], packed: &[u8], out: &mut [u8]) {
    print::label(name, 18);
    print::number(packed.len(), 7);
    print::number(out.len(), 6);
    let done = batch::run(bench(), packed, out);
    print::code(wire::status(done), 8);
    let Done { count, next } = done.unwrap_or(Done {
        count: 0,
        next: bench(),
    });
    print::number(count, 7);
    print::sensor(next, 0);
    print::end();
}

// Behind a setup of type 0x21 stand wLength bytes of payload.
fn payload_length(setup: &[u8]) -> usize {
    if wire::byte(setup, 0) == 0x21 {
        wire::le16(setup, 6)
    } else {
        0
    }
}

fn exchange(setup: &[u8], payload: &[u8], answer: &[u8]) {
    print::bytes(setup, 25);
    print::code(wire::byte(answer, 0), 8);
    print::number(wire::le16(answer, 1), 7);
    print::bytes(wire::tail(answer, 3), 35);
    print::bytes(payload, 0);
    print::end();
}

// Each request of a batch with its answer: the number, the count in two bytes, and as many of reply.
fn exchanges(packed: &[u8], out: &[u8]) {
    let mut requests = packed;
    let mut answers = out;
    while !requests.is_empty() {
        let setup = wire::head(requests, 8);
        let behind = wire::tail(requests, 8);
        let len = payload_length(setup);
        let size = 3 + wire::le16(answers, 1);
        exchange(setup, wire::head(behind, len), wire::head(answers, size));
        let next = wire::tail(behind, len);
        let rest = wire::tail(answers, size);
        requests = next;
        answers = rest;
    }
}

fn refused_rows(packed: &[u8]) {
    let mut room = [0u8; 63];
    send(b"a byte less room", packed, &mut room);
    send(b"a byte cut off", wire::head(packed, 114), &mut room);
}

pub(crate) fn rows() {
    text(b"\nTen requests in a batch, to a fresh one\n");
    text(b"batch             bytes  room  number  count  sensor\n");
    let packed = start_up();
    let mut out = [0u8; 10 * ANSWER_ROOM];
    send(b"the ten", &packed, &mut out);
    refused_rows(&packed);
    text(b"setup                    number  count  reply                              payload\n");
    exchanges(&packed, &out);
}
