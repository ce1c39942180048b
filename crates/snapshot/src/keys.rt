// The keys of a snapshot's records, numbered by kind, then address: exposure compensation, face authentication at each address, metadata,
// HDR, throttle.
ghost use mathlib.Core.{Path.{◌≡◌}, Bool.{cond}};
ghost use Rattle.std.specs.Prelude.{eqb, Some, None};
ghost use Rattle.snapshot.specs.{Keys.{record_length}, Records.{some_key}, Steps.{key_by}};

use wire::{endpoints, selectors};

pub const EV_KEY: usize = 0;

pub const METADATA_KEY: usize = endpoints::PLACES + 1;

pub const HDR_KEY: usize = endpoints::PLACES + 2;

pub const THROTTLE_KEY: usize = endpoints::PLACES + 3;

// How many keys there are.
pub const KEYS: usize = endpoints::PLACES + 4;

// The length of a record of each kind; a metadata or HDR setting is a number.
const EV_LENGTH: usize = 15;

const FACE_LENGTH: usize = 13;

const NUMBER_LENGTH: usize = 8;

const THROTTLE_LENGTH: usize = 24;

const OTHERS: usize = EV_LENGTH + 2 * NUMBER_LENGTH + THROTTLE_LENGTH;

// The longest snapshot: a record of each key. And the longest of a camera's, which lists no more endpoints than a profile may.
pub const LONGEST: usize = OTHERS + FACE_LENGTH * endpoints::PLACES;

pub const LONGEST_WRITTEN: usize = OTHERS + FACE_LENGTH * endpoints::LIMIT;

// The kinds, and the addresses of face authentication.
const EV: usize = selectors::EV as usize;

const FACE: usize = selectors::FACE as usize;

const METADATA: usize = selectors::METADATA as usize;

const HDR: usize = selectors::HDR as usize;

const THROTTLE: usize = selectors::THROTTLE as usize;

const FIRST: usize = endpoints::FIRST as usize;

const LAST: usize = FIRST + endpoints::PLACES - 1;

// The length of a record of a key; 0 where there is no such key.
pub fn record_length(key: usize) -> usize
    ensures { result ≡ record_length key }
{
    match key {
        EV_KEY => EV_LENGTH,
        1..=endpoints::PLACES => FACE_LENGTH,
        METADATA_KEY | HDR_KEY => NUMBER_LENGTH,
        THROTTLE_KEY => THROTTLE_LENGTH,
        _ => 0,
    }
}

// The key, if its records have this length.
fn key_if(len: usize, key: usize) -> Option<usize>
    ensures { result ≡ cond (eqb len (record_length key)) (Some key) None }
{
    (len == record_length(key)).then_some(key)
}

// The key of a record that states this length and kind, its bytes 4 and 5 (of face authentication the number of entries and the address)
// being these; none where there is a fault in them. A throttle's tail is not among them.
pub(crate) fn key_by(len: usize, kind: usize, entries: usize, address: usize) -> Option<usize>
    ensures { result ≡ some_key (key_by len kind entries address) }
{
    match (kind, entries, address) {
        (EV, ..) => key_if(len, EV_KEY),
        (FACE, 1, FIRST..=LAST) => key_if(len, address - (FIRST - 1)),
        (METADATA, ..) => key_if(len, METADATA_KEY),
        (HDR, ..) => key_if(len, HDR_KEY),
        (THROTTLE, ..) => key_if(len, THROTTLE_KEY),
        _ => None,
    }
}
