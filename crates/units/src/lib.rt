// What is proved of the peripheral control unit's calls (request #101), and of two units on one board. The code here is a function that
// does nothing, whose promise is said of every record that a program holds.
// specs/ says what is asked: of a refused call (Refusals, the owner's demand 1), of lists of calls from a fresh unit (Lists), of answers
// and of what reads back (Answers), of both units and of a setup that is the other's (Board); and a table of answers (Table). proofs/ has
// the theorems under the same names. `request` has what holds of every unit, `demands` what holds of the camera.
#![tactic(auto)]

mod program;

pub use program::of_program;
