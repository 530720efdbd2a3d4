// Work memory that ends early: the words that it lacks read as 0.
use test_lib_after::after::is_right;
use test_lib_memory::base::shape;
use test_lib_memory::cells::Run;
use test_lib_rules::call::{Call, Op, needed};
use test_lib_tools::report::Tally;
use test_lib_tools::words::{head, put};

// The last word that is not 0: one of the second cell.
const LAST: u64 = 180;

// Are these words right behind a forecast, which changes none?
fn is_unchanged(now: &[u64], old: &[u64]) -> bool {
    let shape = shape(2);
    let call = Call {
        op: Op::Forecast,
        cell: 1,
        words: needed(shape),
        bytes: 0,
    };
    match (Run::of(shape, now), Run::of(shape, old)) {
        (Some(now), Some(old)) => is_right(&now, &old, call),
        _ => false,
    }
}

// Cut at each word, as the words behind the call and as those before it: they are right where a word that is not 0 is
// not lost.
pub fn ends() -> Tally {
    let mut t = Tally::default();
    let mut words = [0; 250];
    for (word, value) in [(0, 9), (60, 3), (LAST, 7)] {
        put(&mut words, word, value);
    }
    for end in 0..=250 {
        let cut = head(&words, end);
        t.note(is_unchanged(cut, &words) == (end > LAST));
        t.note(is_unchanged(&words, cut) == (end > LAST));
    }
    t
}
