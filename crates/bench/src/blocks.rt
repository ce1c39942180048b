// The metadata blocks of document 01, and of #105 of document 02 one with a newer id: how many items each has, and its first item.
use crate::print;
use printing::text;

fn row(name: &[u8], block: &[u8]) {
    print::label(name, 18);
    print::bytes(block, 49);
    let counted = frame::count(block);
    print::code(wire::status(counted), 8);
    print::number(counted.unwrap_or(0), 7);
    match frame::item(block, 0) {
        Ok(first) => {
            print::id(first.id, first.unknown, 10);
            print::bytes(wire::part_at(block, first.payload), 0);
        }
        Err(_) => {
            print::id(0, false, 10);
            print::bytes(b"", 0);
        }
    }
    print::end();
}

pub(crate) fn rows() {
    text(b"\nFrame metadata\n");
    text(
        b"block             bytes                                            number  items  id        payload\n",
    );
    row(
        b"one item",
        b"\x06\x00\x00\x00\x10\x00\x00\x00\x01\x02\x03\x04\x05\x06\x07\x08",
    );
    row(
        b"with 7 bytes",
        b"\x06\x00\x00\x00\x10\x00\x00\x00\x01\x02\x03\x04\x05\x06\x07",
    );
    row(b"size 8", b"\x06\x00\x00\x00\x08\x00\x00\x00");
    row(b"a newer id", b"\x07\x00\x00\x00\x0a\x00\x00\x00\x01\x02");
    row(b"id 0", b"\x00\x00\x00\x00\x08\x00\x00\x00");
}
