// Snapshots of a camera's settings, which document 01 calls settings sheets, in its section of that name.
// A snapshot is a list of records, each a length, a kind and the bytes that would set one control (of face authentication, one endpoint).
// `check` judges the form of any bytes; `merging` puts two snapshots together.
// `key_at` says which key stands at a place and `record_length` how long its records are: with these code goes through a snapshot that
// `check` accepts, from record to record. `record_of` reads one.
// Nothing here judges the values that the records carry: that is the camera's.
#![tactic(auto)]

mod form;
mod keys;
mod records;

pub use form::{check, well_formed};
pub use keys::{
    EV_KEY, HDR_KEY, KEYS, LONGEST, LONGEST_WRITTEN, METADATA_KEY, THROTTLE_KEY, record_length,
};
pub use records::{Records, key_at, record_of, records_in};
