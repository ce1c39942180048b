// The camera: its record, and the calls that take it, each a method that hands the next record back.
// Document 01, "Profile and camera record", "Requests and the order of tests", "Settings sheet" and "The list of demand 3".
// `profile` and `settings` know the limits and the settings of the five controls, `request` the tests that any unit shares, `snapshot` and
// `encoding` the form and the bytes of a settings sheet; here they meet on one record with the streaming flag. `demands` has the owner's
// demands on these calls as theorems.
#![tactic(auto)]

mod calls;
mod loading;
mod record;
mod requests;
mod writing;

pub use record::Camera;
