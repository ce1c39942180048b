// Records made of a row's fields, also such as no call leaves.
use crate::words::{Bytes, number, octet, word};
use camera::Camera;
use controls::{EvSetting, ThrottleSetting};
use exposure::EvLimits;
use face::FaceLimits;
use hdr::HdrLimits;
use metadata::MetadataLimits;
use profile::Profile;
use settings::Settings;
use throttle::ThrottleLimits;
use wire::signed32;

fn flag(w: &[u8]) -> bool {
    octet(w, 0) != 0
}

fn ev_limits(w: &[u8]) -> EvLimits {
    EvLimits {
        minimum: signed32(number(w, 0)),
        maximum: signed32(number(w, 4)),
        steps: octet(w, 8),
    }
}

fn face_limits(count: &[u8], addresses: &[u8], offers: &[u8]) -> FaceLimits {
    FaceLimits {
        count: octet(count, 0),
        addresses: Bytes::of(addresses).places(),
        offers: Bytes::of(offers).places(),
    }
}

fn metadata_limits(w: &[u8]) -> MetadataLimits {
    MetadataLimits {
        maximum: number(w, 0),
        writable: octet(w, 4) != 0,
    }
}

fn throttle_limits(w: &[u8]) -> ThrottleLimits {
    ThrottleLimits {
        minimum: number(w, 0),
        maximum: number(w, 4),
        step: number(w, 8),
    }
}

// A profile: unit and interface, controls, EV, face (count, addresses, offers), metadata, Auto, throttle.
pub(crate) fn profile(call: &[u8]) -> Profile {
    Profile {
        unit: octet(word(call, 1), 0),
        interface: octet(word(call, 2), 0),
        controls: number(word(call, 3), 0),
        ev: ev_limits(word(call, 4)),
        face: face_limits(word(call, 5), word(call, 6), word(call, 7)),
        metadata: metadata_limits(word(call, 8)),
        hdr: HdrLimits {
            auto: flag(word(call, 9)),
        },
        throttle: throttle_limits(word(call, 10)),
    }
}

fn ev(w: &[u8]) -> Option<EvSetting> {
    (2 <= w.len()).then_some(EvSetting {
        flags: octet(w, 0),
        value: signed32(number(w, 1)),
    })
}

fn held(w: &[u8]) -> Option<u32> {
    (2 <= w.len()).then_some(number(w, 0))
}

fn throttle(w: &[u8]) -> Option<ThrottleSetting> {
    (2 <= w.len()).then_some(ThrottleSetting {
        mode: number(w, 0),
        percent: number(w, 4),
    })
}

// The camera's profile and flag with settings: EV, face by address, metadata, HDR, throttle.
pub(crate) fn holding(camera: Camera, call: &[u8]) -> Camera {
    Camera {
        settings: Settings {
            ev: ev(word(call, 1)),
            face: Bytes::of(word(call, 2)).places(),
            metadata: held(word(call, 3)),
            hdr: held(word(call, 4)),
            throttle: throttle(word(call, 5)),
        },
        ..camera
    }
}

// A fresh camera of the row's profile, streaming or not.
pub(crate) fn fresh(call: &[u8]) -> Camera {
    Camera::fresh(profile(call), flag(word(call, 11)))
}

// A camera without controls, until a row gives another.
pub(crate) fn first() -> Camera {
    fresh(b"")
}
