// What all test programs are made of: bytes and words of a slice (bytes, words), pseudo-random numbers (random), a
// model's tests (refusal), and the lines that tell how many rows agree (report). Nothing here is from the crates under
// test.
#![tactic(auto)]

pub mod bytes;
pub mod random;
pub mod refusal;
pub mod report;
pub mod words;
