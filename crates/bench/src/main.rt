// The bench camera of document 01, and the tables of what it answers: each request of the paper's rows with its number, its
// count, what the sensor is handed, the reply and the snapshot (01's settings sheet); a batch of requests; an exchange with the peripheral
// control unit; the paper's metadata blocks; and 004's two descriptor sets. `demands` has the rows marked (p) as a theorem over the
// definitions.
#![tactic(auto)]

mod batches;
mod blocks;
mod device;
mod peripherals;
mod print;
mod requests;
mod sets;

fn main() {
    requests::fresh_rows();
    requests::kept_rows();
    batches::rows();
    peripherals::rows();
    blocks::rows();
    sets::header();
    sets::first_rows();
    sets::second_row();
}
