// What follows from the plain machine's sets and the sampler's bytes: the words of work memory by docs/LAYOUT.md
// (memory), the frames (frames) and the pages (pages).
#![tactic(auto)]

pub mod frames;
pub mod memory;
pub mod pages;
