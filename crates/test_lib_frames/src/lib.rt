// What a test of the calls on frames is made of: frames built by the test itself (build), what the papers say of any
// bytes (due), and the rows that hold the calls to it (ask).
#![tactic(auto)]

pub mod ask;
pub mod build;
pub mod due;
