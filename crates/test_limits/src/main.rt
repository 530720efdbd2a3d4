// Holds the calls on a run to the papers at both sides of every limit of shapes, arguments, sets and samples. What is
// due is written in the rows, or decided by test_lib_memory.
#![tactic(auto)]

mod arguments;
mod binning;
mod samples;
mod shapes;
mod speed;

use test_lib_tools::report::Tally;

// The shapes have N of their own, the others N = 2.
fn main(rt: HostRuntime) {
    let mut total = Tally::default();
    total.group(&rt, 2, "shapes", shapes::shapes());
    total.group(&rt, 2, "data bin", binning::data_bins());
    total.group(&rt, 2, "blocks", binning::blocks());
    total.group(&rt, 2, "argument", arguments::arguments());
    total.group(&rt, 2, "wide", binning::wide());
    total.group(&rt, 2, "speed", speed::dumps());
    total.group(&rt, 2, "validity", samples::validity());
    total.group(&rt, 2, "bytes", samples::bytes());
    total.group(&rt, 2, "entries", samples::entries());
    total.group(&rt, 2, "peaks", samples::peaks());
    total.show_verdict(&rt);
}
