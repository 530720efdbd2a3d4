// Holds the calls on a run to the papers on memory that nobody but the test has written: refusal 11, clause by clause
// and part by part. What is due is decided by test_lib_memory; in the rows of losses it is written beside that.
#![tactic(auto)]

mod losses;
mod sweep;

use test_lib_tools::report::Tally;

fn main(rt: HostRuntime) {
    let mut total = Tally::default();
    for lags in [2, 4] {
        sweep::groups(&rt, &mut total, lags);
    }
    total.group(&rt, 2, "losses", losses::pages());
    total.show_verdict(&rt);
}
