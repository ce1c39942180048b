// Face authentication: the endpoints that a profile lists, with what each offers, and GET's answers. Document 01, "The five controls"; 003
// decides for it. Each endpoint has a setting of its own, kept by its address. `entries` has what a SET comes to.
#![tactic(auto)]

mod answers;
mod limits;

pub use answers::answer;
pub use limits::{FaceLimits, endpoints_of, offers_of, place_of, valid};
