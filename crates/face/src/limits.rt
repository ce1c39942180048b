// The endpoints that a profile lists, and the place of an address among them.
ghost use Rattle.std.specs.Prelude.{◌≡◌, ◌<◌, ◌≤◌, IfSome};
ghost use Rattle.wire.specs.Endpoints.{endpoint_limit};
ghost use Rattle.face.specs.Limits.{endpoints_of, address_before, endpoint_valid, face_valid, place_of, place_or_limit, offers_of};

use wire::endpoints;

const LAST: u8 = endpoints::FIRST + (endpoints::PLACES as u8) - 1;

// Endpoints in ascending order of their addresses, each with the flags that it offers; places behind the count are zero.
#[derive(Clone, Copy)]
pub struct FaceLimits {
    pub count: u8,
    pub addresses: [u8; endpoints::LIMIT],
    pub offers: [u8; endpoints::LIMIT],
}

// How many it lists.
pub fn endpoints_of(l: FaceLimits) -> usize
    ensures { (result ≡ endpoints_of l) × (result ≤ endpoint_limit) }
{
    usize::from(l.count).min(endpoints::LIMIT)
}

// The address that place i's has to be above.
#[tactic(auto, using(crate::proofs::Laws::Limits::before_next), unfolding(crate::specs::Limits::address_before))]
fn address_before(l: FaceLimits, i: usize) -> u8
    requires { i < endpoint_limit }
    ensures { result ≡ address_before l i }
{
    if i == 0 {
        endpoints::FIRST - 1
    } else {
        l.addresses[i - 1]
    }
}

#[tactic(auto, unfolding(crate::specs::Limits::endpoint_valid))]
fn endpoint_valid(l: FaceLimits, i: usize) -> bool
    requires { i < endpoint_limit }
    ensures { result ≡ endpoint_valid l i }
{
    let address = l.addresses[i];
    let offers = l.offers[i];
    if i < usize::from(l.count) {
        address_before(l, i) < address && address <= LAST && matches!(offers / 2, 1 | 2)
    } else {
        address == 0 && offers == 0
    }
}

#[tactic(auto, unfolding(crate::specs::Limits::face_valid_under))]
pub fn valid(l: FaceLimits) -> bool
    ensures { result ≡ face_valid l }
{
    endpoints::count_valid(l.count) && (0..endpoints::LIMIT).all(|i| endpoint_valid(l, i))
}

// The first place that lists an address.
pub fn place_of(l: FaceLimits, address: u8) -> Option<usize>
    ensures value { place_or_limit result ≡ place_of l address }
    ensures within { IfSome result (λ i. i < endpoint_limit) }
{
    l.addresses[..endpoints_of(l)]
        .iter()
        .position(|a| *a == address)
}

// The flags that the endpoint at an address offers; 0 where it isn't listed.
#[tactic(auto, using(crate::proofs::Laws::Limits::offers_none, crate::proofs::Laws::Limits::offers_placed))]
pub fn offers_of(l: FaceLimits, address: u8) -> u8
    ensures { result ≡ offers_of l address }
{
    match place_of(l, address) {
        None => 0,
        Some(i) => l.offers[i],
    }
}
