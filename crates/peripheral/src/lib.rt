// The peripheral control unit of document 002, for meeting rooms (request #101): a second extension unit, with a record of its own.
// Four controls, all present: the frame strategy, a toggle for counting occupants, the reading of that count, and a status reset. 002 gives
// the selectors, the lengths and the information bytes, document 02 the rules. `request` has 01's nine tests, over this unit's table of
// controls; here are its record, its values and its calls, each a method that hands the next record back.
#![tactic(auto)]

mod calls;
mod record;
mod requests;
pub mod selectors;
mod values;

pub use record::Peripheral;
