// Runs the libraries' calls on the rows of the file `stdin` and writes each row with its answer behind it: document 01's number in
// hex, counts and places in decimal, parts in hex, and every byte of a lent buffer, which holds 0xee before.
// A row is a name, a colon, a call and the call's fields in hex, little-endian, `-` for no bytes. A line without a colon is a
// heading. The calls are in src/camera_calls.rt, peripherals.rt, snapshots.rt, frames.rt and sets.rt, the fields of a camera in
// src/record.rt.
#![tactic(auto)]

mod buffers;
mod camera_calls;
mod frames;
mod peripherals;
mod print;
mod record;
mod sets;
mod snapshots;
mod words;

ghost use Rattle.std.specs.Prelude.{◌≡◌, length};

use camera::Camera;
use peripheral::Peripheral;

// The two units that the rows go to.
#[derive(Clone, Copy)]
struct Board {
    camera: Camera,
    peripheral: Peripheral,
}

// The units after a row.
fn row(board: Board, line: &[u8]) -> Board {
    printing::text(line);
    let call = words::behind(line, b':');
    snapshots::run(call);
    frames::run(call);
    sets::run(call);
    let camera = camera_calls::run(board.camera, call);
    let peripheral = peripherals::run(board.peripheral, call);
    printing::text(b"\n");
    Board { camera, peripheral }
}

fn rows(s: &[u8]) {
    let mut board = Board {
        camera: record::first(),
        peripheral: peripherals::blank(),
    };
    if s.is_empty() {
        return;
    }
    // The last line may end without a newline.
    for line in s.strip_suffix(b"\n").unwrap_or(s).split(|b| *b == b'\n') {
        board = row(board, line);
    }
}

// As many zeros. The length is promised for any number of them, so that no proof counts half a million.
fn zeros<const N: usize>() -> [u8; N]
    ensures { N ≡ length result }
{
    [0; N]
}

fn main() {
    let mut input = zeros::<524288>();
    let n = io::read_full(0, &mut input);
    rows(wire::head(&input, n));
}
