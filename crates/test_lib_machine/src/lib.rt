// The plain machine of document 01, built from its text: sets of tick numbers (sets), a cell with the calls on it
// (cell), and the run (machine).
#![tactic(auto)]

pub mod cell;
pub mod machine;
pub mod sets;
