// An exchange with the peripheral control unit of #101: unit 6 beside the camera's unit 4, with 002's own mask of supported modes. A line
// for each call, with the record behind its answer.
use crate::print;
use peripheral::{Peripheral, selectors};
use printing::{fill, text};
use request::Done;
use wire::Refusal;

fn record(p: Peripheral) {
    print::bytes(&wire::bytes::<8>(p.mode), 25);
    print::number(usize::from(p.toggle), 8);
    print::number(p.count as usize, 11);
    print::number(usize::from(p.reset), 0);
    print::end();
}

fn answered(p: Peripheral, done: Result<Done<Peripheral>, Refusal>, reply: &[u8]) -> Peripheral {
    print::code(wire::status(done), 8);
    let Done { count, next } = done.unwrap_or(Done { count: 0, next: p });
    print::number(count, 7);
    print::bytes(wire::head(reply, count), 25);
    record(next);
    next
}

fn send(p: Peripheral, name: &[u8], setup: &[u8], payload: &[u8]) -> Peripheral {
    print::label(name, 20);
    print::bytes(setup, 25);
    print::bytes(payload, 25);
    let mut reply = [0u8; 8];
    let done = p.request(setup, payload, &mut reply);
    answered(p, done, &reply)
}

fn set(p: Peripheral, name: &[u8], selector: u8, payload: &[u8], wlength: u8) -> Peripheral {
    let setup = [0x21, 0x01, 0, selector, 0, 6, wlength, 0];
    send(p, name, &setup, payload)
}

fn mode(p: Peripheral, name: &[u8], low: u8) -> Peripheral {
    let payload = [low, 0, 0, 0, 0, 0, 0, 0];
    set(p, name, selectors::FRAME_STRATEGY, &payload, 8)
}

// GET of a request code, of unit 6 on interface 0.
fn get(p: Peripheral, name: &[u8], code: u8, selector: u8, wlength: u8) -> Peripheral {
    let setup = [0xA1, code, 0, selector, 0, 6, wlength, 0];
    send(p, name, &setup, b"")
}

// A notice has neither setup nor payload.
fn noticed(p: Peripheral, name: &[u8], next: Result<Peripheral, Refusal>) -> Peripheral {
    print::label(name, 20);
    fill(0, 50);
    answered(p, next.map(|next| Done { count: 0, next }), b"")
}

fn strategy_rows(fresh: Peripheral) -> Peripheral {
    let a = get(
        fresh,
        b"supported modes",
        0x84,
        selectors::FRAME_STRATEGY,
        8,
    );
    let b = mode(a, b"mode 0x04", 0x04);
    let c = mode(b, b"mode 0x02", 0x02);
    mode(c, b"mode 0x05", 0x05)
}

fn occupancy_rows(p: Peripheral) -> Peripheral {
    let a = noticed(p, b"12 occupants", p.set_count(12));
    let b = get(a, b"reading, off", 0x81, selectors::OCCUPANCY_READING, 2);
    let c = set(b, b"toggle 1", selectors::OCCUPANCY_TOGGLE, b"\x01", 1);
    let d = get(c, b"reading", 0x81, selectors::OCCUPANCY_READING, 2);
    noticed(d, b"256 occupants", d.set_count(256))
}

fn reset_rows(p: Peripheral) {
    let a = set(p, b"reset 1", selectors::STATUS_RESET, b"\x01", 1);
    let b = set(a, b"reset 0", selectors::STATUS_RESET, b"\x00", 1);
    let c = noticed(b, b"restart", b.restart());
    send(
        c,
        b"to the camera",
        b"\xa1\x81\x00\x03\x00\x04\x0b\x00",
        b"",
    );
}

pub(crate) fn rows() {
    text(b"\nThe peripheral control unit, unit 6 on interface 0\n");
    text(b"call                setup                    payload                  number  count  ");
    text(b"reply                    mode                     toggle  occupants  reset\n");
    let a = strategy_rows(Peripheral::fresh(6, 0, 0x85));
    reset_rows(occupancy_rows(a));
}
