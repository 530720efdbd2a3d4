// What an accepted call leaves of any words of work memory: the words of a cell (changes) and of the run (after); the
// frame of a bin or of Open (frames); the page (pages).
#![tactic(auto)]

pub mod after;
mod changes;
pub mod frames;
pub mod pages;
