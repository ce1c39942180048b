// The owner's three demands on the camera as theorems, and document 01's marked rows as a table with one claim. The code here
// is a function that does nothing, whose promise is said of every camera that a program holds, and one for the lengths of buffers. specs/
// says what each demand asks: of a refused call (demand 1, Refusals), of answers and of what reads back (demand 2, Answers, and Sensor for
// the sensor's number), of lists of calls, merging and loading (demand 3, Lists, over Runs, document 01's "The list of demand 3"), and of
// what counts as a SET (Loading); and what request #107 asks (Endpoints). proofs/ has the theorems under the same names. The demands on
// `packet`, `frame`, `snapshot`, `merging` and `descriptors` are in these crates' own Theorems.
#![tactic(auto)]

mod buffers;
mod program;

pub use buffers::buffer_lengths;
pub use program::of_program;
