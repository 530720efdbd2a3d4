// Holds picks to request 2026-07: which bin they take, of every choice of Ready bins, one after the other where all are
// Ready, and at the ends of the longest rounds. What is due is written in the rows beside what test_lib_memory decides.
#![tactic(auto)]

mod rounds;

use test_lib_tools::report::Tally;

fn main(rt: HostRuntime) {
    let mut total = Tally::default();
    total.group(&rt, 2, "choices", rounds::choices());
    total.group(&rt, 2, "all", rounds::all());
    total.group(&rt, 2, "rounds", rounds::longest());
    total.show_verdict(&rt);
}
