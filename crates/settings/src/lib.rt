// The settings of a camera's five controls together: which keep their rules, what a SET gives, and what is held.
// Document 01, "Profile and camera record" and "The five controls".
// The crates of the controls know each by itself, and `profile` their limits; nothing here knows of the streaming flag or of calls.
#![tactic(auto)]

mod held;
mod items;
mod kept;
mod settings;

pub use settings::Settings;
