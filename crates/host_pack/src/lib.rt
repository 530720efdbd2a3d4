// For hosts that are told numbers: shapes and fields from numbers in a slice, and answers to one number, the refusal
// in the high half and the answer in the low.
#![tactic(auto)]

pub mod numbers;
pub mod pack;
