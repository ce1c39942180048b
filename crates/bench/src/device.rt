// The bench camera: unit 4 on interface 0, streaming. EV from -2 to 2 stops in every step, face authentication at 0x81 offering
// D0 and D1, HDR without Auto, throttle from 5 to 100 in steps of 5; no metadata control.
ghost use Rattle.std.specs.Prelude.{◌≡◌};
ghost use Rattle.demands.specs.Bench.{bench_profile, bench};

use camera::Camera;
use exposure::EvLimits;
use face::FaceLimits;
use hdr::HdrLimits;
use metadata::MetadataLimits;
use profile::Profile;
use throttle::ThrottleLimits;
use wire::endpoints;

#[tactic(auto, unfolding(demands::specs::Bench::bench_profile))]
fn profile() -> Profile
    ensures { result ≡ bench_profile }
{
    let mut addresses = [0u8; endpoints::LIMIT];
    addresses[0] = endpoints::FIRST;
    let mut offers = [0u8; endpoints::LIMIT];
    offers[0] = 0x03;
    Profile {
        unit: 4,
        interface: 0,
        controls: 0x3024,
        ev: EvLimits {
            minimum: -2,
            maximum: 2,
            steps: 0x1F,
        },
        face: FaceLimits {
            count: 1,
            addresses,
            offers,
        },
        metadata: MetadataLimits {
            maximum: 0,
            writable: false,
        },
        hdr: HdrLimits { auto: false },
        throttle: ThrottleLimits {
            minimum: 5,
            maximum: 100,
            step: 5,
        },
    }
}

pub(crate) fn bench() -> Camera
    ensures { result ≡ bench }
{
    Camera::fresh(profile(), true)
}
