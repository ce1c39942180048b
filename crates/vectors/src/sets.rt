// Calls on descriptor sets.
use crate::print;
use crate::words::{Bytes, lay, place, word};
use descriptors::RegistryProperty;
use wire::Part;

fn interface(first: Option<u8>) {
    match first {
        None => {
            printing::text(b" -");
        }
        Some(n) => print::count(usize::from(n)),
    }
}

// Property k: number, offset, data type, interface, name and data. Whether there is one.
fn entry(set: &[u8], k: usize) -> bool {
    let read = descriptors::property(set, k);
    let nowhere = Part { at: 0, len: 0 };
    let property = read.unwrap_or(RegistryProperty {
        offset: 0,
        kind: 0,
        name: nowhere,
        value: nowhere,
        interface: None,
    });
    print::code(wire::status(read));
    print::count(read.err().map_or(property.offset, |fault| fault.offset));
    print::count(property.kind);
    interface(property.interface);
    print::part(wire::part_at(set, property.name));
    print::part(wire::part_at(set, property.value));
    read.is_ok()
}

// A property on a line of its own.
fn line(set: &[u8], k: usize) -> bool {
    printing::text(b"\n ");
    print::count(k);
    entry(set, k)
}

fn properties(set: &[u8]) {
    for k in 0..16 {
        if !line(set, k) {
            return;
        }
    }
}

// The refusal, its offset and what the boot code gets; then each property and the first that is not there.
fn check(set: &[u8]) {
    let checked = descriptors::check(set);
    print::code(wire::status(checked));
    print::count(checked.err().map_or(0, |fault| fault.offset));
    print::hex(u64::from(descriptors::flandurvi_descriptors_check(set)), 2);
    properties(set);
}

fn set(call: &[u8]) {
    check(Bytes::<1024>::of(word(call, 1)).as_slice());
}

fn long_set(call: &[u8]) {
    let mut bytes = [0; 65546];
    lay(word(call, 2), &mut bytes);
    check(wire::head(&bytes, place(word(call, 1))));
}

fn property(call: &[u8]) {
    let given = Bytes::<1024>::of(word(call, 2));
    entry(given.as_slice(), place(word(call, 1)));
}

// set SET, long-set LENGTH SET (zeros behind it up to the length), property K SET.
pub(crate) fn run(call: &[u8]) {
    match word(call, 0) {
        b"set" => set(call),
        b"long-set" => long_set(call),
        b"property" => property(call),
        _ => {}
    }
}
