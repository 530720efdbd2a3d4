// Holds what the test programs are made of to what it says of itself: the lines of a report, what is answered where one
// is not written, and the comparison of work memory that ends early.
#![tactic(auto)]

mod lines;
mod memory;
mod output;

use test_lib_tools::report::Tally;

// A group's line, and its rows.
fn group(rt: &impl Print, total: &mut Tally, name: &str, rows: Tally) {
    let _ = println!(rt; "{name:8} {rows}");
    total.include(&rows);
}

fn main(rt: HostRuntime) {
    let mut total = Tally::default();
    group(&rt, &mut total, "texts", lines::texts(&rt));
    group(&rt, &mut total, "answers", lines::answers());
    group(&rt, &mut total, "dropped", lines::dropped());
    group(&rt, &mut total, "memory", memory::ends());
    total.show_verdict(&rt);
}
