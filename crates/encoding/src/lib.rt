// Settings as a snapshot, 01's settings sheet: how long it is, and its bytes. Document 01, "Settings sheet".
// A snapshot has a record for each setting held and no other, in ascending order of the keys. `snapshot` knows the form of any snapshot and
// `settings` what is held; the record test and the room that a call is lent are the camera's.
#![tactic(auto)]

ghost use Rattle.std.specs.Prelude.{◌≡◌, ◌≤◌, length};
ghost use Rattle.wire.specs.Writes.{overlay};
ghost use Rattle.encoding.specs.Encoding.{framed, record_of, encoded};

use controls::Setting;
use settings::Settings;
use throttle::ThrottleLimits;
use wire::selectors;

// Writes a record at a place, as far as out reaches: its length and its kind, two bytes each, then the payload that would set the control.
fn put_record(out: &mut [u8], at: usize, kind: u8, payload: &[u8])
    requires { length payload.now ≤ 20 }
    ensures { out.new ≡ overlay out.old at (framed kind payload.now) }
{
    let mut record = [0u8; 24];
    record[0] = 4 + payload.len() as u8;
    record[2] = kind;
    wire::copy(&mut record, 4, payload);
    wire::copy(out, at, wire::head(&record, 4 + payload.len()));
}

// Behind a throttle's setting in a snapshot stand zeros.
const NO_LIMITS: ThrottleLimits = ThrottleLimits {
    minimum: 0,
    maximum: 0,
    step: 0,
};

#[tactic(auto, using(crate::proofs::Laws::Encoding::face_record), unfolding(crate::specs::Encoding::record_of))]
fn put_setting(out: &mut [u8], at: usize, s: Setting)
    ensures { out.new ≡ overlay out.old at (record_of s) }
{
    match s {
        Setting::Ev(s) => put_record(out, at, selectors::EV, &exposure::bytes(s)),
        Setting::Face { address, flags } => {
            let entry = [1, address, flags, 0, 0, 0, 0, 0, 0];
            put_record(out, at, selectors::FACE, &entry);
        }
        Setting::Metadata(n) => put_record(
            out,
            at,
            selectors::METADATA,
            &wire::bytes::<4>(u64::from(n)),
        ),
        Setting::Hdr(n) => put_record(out, at, selectors::HDR, &wire::bytes::<4>(u64::from(n))),
        Setting::Throttle(s) => put_record(
            out,
            at,
            selectors::THROTTLE,
            &throttle::bytes(s, NO_LIMITS),
        ),
    }
}

// How long the snapshot of settings is.
pub fn measure(s: Settings) -> usize
    ensures { result ≡ length (encoded s) }
{
    let mut n = 0;
    for key in 0..snapshot::KEYS {
        if s.held(key).is_some() {
            n += snapshot::record_length(key);
        }
    }
    n
}

// Writes it over the start of out, as far as out reaches: key by key, what is held.
pub fn write(s: Settings, out: &mut [u8])
    ensures { out.new ≡ overlay out.old 0 (encoded s) }
{
    let mut at = 0;
    for key in 0..snapshot::KEYS {
        if let Some(setting) = s.held(key) {
            put_setting(out, at, setting);
            at += snapshot::record_length(key);
        }
    }
}
