// Calls of the peripheral control unit. Behind each answer stands the record then: unit, interface, mask and mode in hex, and the toggle,
// the count and the reset in decimal.
use crate::buffers::{LENT, first};
use crate::print;
use crate::words::{Bytes, number, octet, place, word};
use peripheral::Peripheral;
use request::Done;
use wire::Refusal;

fn record(p: Peripheral) {
    printing::text(b" |");
    print::hex(u64::from(p.unit), 2);
    print::hex(u64::from(p.interface), 2);
    print::hex(p.mask, 16);
    print::hex(p.mode, 16);
    print::count(usize::from(p.toggle));
    print::count(p.count as usize);
    print::count(usize::from(p.reset));
}

// A record as it stands, of which nothing is asked.
fn stands(p: Peripheral) -> Peripheral {
    printing::text(b" =");
    record(p);
    p
}

// Writes number and count, and what is left in the buffer that was lent.
fn told(p: Peripheral, done: Result<Done<Peripheral>, Refusal>, lent: &[u8]) -> Peripheral {
    let next = print::done(p, done);
    print::bytes(lent);
    record(next);
    next
}

// A notice writes nothing and is lent nothing.
fn noticed(p: Peripheral, next: Result<Peripheral, Refusal>) -> Peripheral {
    told(p, next.map(|next| Done { count: 0, next }), b"")
}

// A fresh unit: its id, interface and mask.
fn fresh(call: &[u8]) -> Peripheral {
    let mask = place(word(call, 3)) as u64;
    Peripheral::fresh(octet(word(call, 1), 0), octet(word(call, 2), 0), mask)
}

// The unit with a mode, a toggle, a count and a reset, also such as no call leaves.
fn holding(p: Peripheral, call: &[u8]) -> Peripheral {
    Peripheral {
        mode: place(word(call, 1)) as u64,
        toggle: octet(word(call, 2), 0),
        count: number(word(call, 3), 0),
        reset: octet(word(call, 4), 0),
        ..p
    }
}

// A request: room for the reply, setup, payload.
fn request(p: Peripheral, call: &[u8]) -> Peripheral {
    let setup = Bytes::<LENT>::of(word(call, 2));
    let payload = Bytes::<LENT>::of(word(call, 3));
    let mut room = [0xEEu8; LENT];
    let reply = first(&mut room, usize::from(octet(word(call, 1), 0)));
    let done = p.request(setup.as_slice(), payload.as_slice(), reply);
    told(p, done, reply)
}

// A unit without modes, until a row gives another.
pub(crate) fn blank() -> Peripheral {
    Peripheral::fresh(0, 0, 0)
}

// unit UNIT INTERFACE MASK, unit-hold MODE TOGGLE COUNT RESET, unit-request ROOM SETUP PAYLOAD, unit-count COUNT (the detector's),
// unit-restart.
pub(crate) fn run(p: Peripheral, call: &[u8]) -> Peripheral {
    match word(call, 0) {
        b"unit" => stands(fresh(call)),
        b"unit-hold" => stands(holding(p, call)),
        b"unit-request" => request(p, call),
        b"unit-count" => noticed(p, p.set_count(number(word(call, 1), 0))),
        b"unit-restart" => noticed(p, p.restart()),
        _ => p,
    }
}
