// The calls for C and for any language that calls C's functions: include/lta.h declares them. Each takes numbers and
// slices, a pointer and a length; answers are packed into one number, refusal in the high half and answer in the low.
#![tactic(auto)]

pub mod frames;
pub mod run;
