// The papers without any state: what they say of a call's arguments (call), the sampler's bytes and what a tick adds by
// them (history), the header words of a frame (frame_words), the bytes of a page (page), and a pick's places (places).
#![tactic(auto)]

pub mod call;
pub mod frame_words;
pub mod history;
pub mod page;
pub mod places;
