// Request 2026-07 without any state: places in their round, and a pick with the bin that it takes.
use crate::call::{Bin, Call, Op};

// Places 0 to size - 1, "going round": the one that is j behind place `at`.
pub fn behind(at: u64, j: u64, size: u64) -> u64 {
    at.wrapping_add(j).checked_rem(size).unwrap_or(0)
}

// How many bins a cell has: B in each of two banks.
pub fn places(bins: u64) -> u64 {
    bins.saturating_mul(2)
}

// A pick that takes the bin at place q of a cell.
pub fn taking(k: Call, cell: u64, q: u64, bins: u64) -> Call {
    Call {
        op: Op::Pick(Some(Bin::at(q, bins))),
        cell,
        ..k
    }
}
