// The calls that are tested.
#![tactic(auto)]

pub mod ask;
