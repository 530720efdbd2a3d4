// What the papers say of any words of work memory: where each part stands (map), memory as a run with its cells
// (cells), which bin a pick takes (picks), what is damage to a call (damage) and what a call says (due); and memory
// that the test sets (base).
#![tactic(auto)]

pub mod base;
pub mod cells;
mod damage;
pub mod due;
pub mod map;
pub mod picks;
