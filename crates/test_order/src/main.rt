// Holds the calls on a run to the order of the papers' refusals, and an integration and an emission to what they say of
// the number of Ready bins. What is due is written in the rows, or decided by test_lib_memory.
#![tactic(auto)]

mod order;
mod ready;

use test_lib_tools::report::Tally;

fn main(rt: HostRuntime) {
    let mut total = Tally::default();
    total.group(&rt, 2, "order", order::refusals());
    total.group(&rt, 2, "ready", ready::numbers());
    total.show_verdict(&rt);
}
