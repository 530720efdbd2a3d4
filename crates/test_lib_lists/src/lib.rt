// The calls of a list.
#![tactic(auto)]

pub mod draw;
