// Holds the calls of crate frame to document 01, "The frame" and "Who may be told no", and to requests 2026-04 and
// 2026-06: a line for each group of rows, once for each kind of frame.
// What is due is written in the rows, or decided by the model of test_lib_frames; from the crates under test come the
// calls and the types of their answers.
#![tactic(auto)]

mod example;
mod normal;

use test_lib_frame_rows::{damage, order, sweep, writer};
use test_lib_frames::build::Frame;
use test_lib_tools::bytes::Kind;
use test_lib_tools::report::Tally;

// A group that was run with frames like this one: its line, as soon as it is done, and its rows.
fn group(rt: &impl Print, total: &mut Tally, base: Frame, name: &str, rows: Tally) {
    let _ = print!(rt; "kind {}, ", base.kind.number());
    total.group(rt, base.lags, name, rows);
}

// The groups that are run once, with frames of N = 2.
fn once(rt: &impl Print, total: &mut Tally, base: Frame) {
    group(rt, total, base, "example", example::frames(base.kind));
    group(rt, total, base, "no ticks", normal::no_ticks(base));
    group(rt, total, base, "bad N", order::bad_shapes(base));
    group(rt, total, base, "reading", order::reading(base));
    group(rt, total, base, "writing", order::writing(base));
}

// The groups that are run with frames of each N.
fn at_each_n(rt: &impl Print, total: &mut Tally, base: Frame) {
    group(rt, total, base, "length", damage::lengths(base));
    group(rt, total, base, "mark", damage::marks(base));
    group(rt, total, base, "last sum", damage::last_words(base));
    group(rt, total, base, "words", damage::words(base));
    group(rt, total, base, "bits", damage::bits(base));
    group(rt, total, base, "lags", normal::lags(base));
    group(rt, total, base, "quotient", normal::quotients(base));
    group(rt, total, base, "fields", writer::fields(base));
    group(rt, total, base, "limits", writer::lags(base));
    group(rt, total, base, "counts", writer::counts(base));
    group(rt, total, base, "buffers", writer::rooms(base));
    group(rt, total, base, "greatest", sweep::greatest(base));
    group(rt, total, base, "random", sweep::random(base));
    group(rt, total, base, "damage", sweep::damaged(base));
}

fn main(rt: HostRuntime) {
    let mut total = Tally::default();
    for kind in [Kind::Binned, Kind::Speed] {
        once(&rt, &mut total, Frame::base(kind, 2));
        for n in [2, 6, 128] {
            at_each_n(&rt, &mut total, Frame::base(kind, n));
        }
    }
    total.show_verdict(&rt);
}
