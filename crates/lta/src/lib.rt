// The calls on a run. Each contract is the definition `step` at that call: the answer and every lent byte, on any
// input.
#![tactic(auto)]

pub use call_dump::dump;
pub use call_emit::emit;
pub use call_forecast::forecast;
pub use call_integrate::integrate;
pub use call_page::page;
pub use call_pick::pick;
pub use call_reading::reading;
pub use call_setup::{setup, words_needed};
pub use call_tick::tick;
