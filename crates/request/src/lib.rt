// Class requests to an extension unit, whatever its controls: the eight setup bytes, document 01's nine tests, a GET's
// answer, and how it is cut to wLength and sent. USB Video Class 1.5 gives the request codes.
// The definitions have all nine tests over a table of controls. The code has tests 2 to 6 and, in `send`, test 9; a unit's
// record, state and values, tests 1, 7 and 8, are its own.
#![tactic(auto)]

mod answers;
mod reply;
mod setup;
mod tests;

pub use answers::{Answer, LONGEST_ANSWER, answer_by};
pub use reply::{Done, send};
pub use setup::{code, is_set_request, selector, wlength};
pub use tests::{Control, Unit, has_control};
