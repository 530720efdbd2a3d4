// "Normalised lag", and a frame without ticks.
use lta_spec::Refusal;
use test_lib_frames::ask::{expect_read, is_normal, normal};
use test_lib_frames::build::{Content, Field, Frame};
use test_lib_tools::bytes::head;
use test_lib_tools::refusal::unless;
use test_lib_tools::report::Tally;

// Lags whose place in the frame wraps round to a good one.
const FAR: [u64; 3] = [4294967296, 9223372036854775808, 18446744073709551615];

// Each lag up to N and the far ones, where the centre count is 0 or 1: "if that count is 0", no data; where it is 1,
// the lag is there; 12, "no such lag", from N on.
pub fn lags(base: Frame) -> Tally {
    let mut t = Tally::default();
    for (centre, has_data) in [(0, false), (1, true)] {
        let frame = base.with(Content::Changed(Field::Centre, centre));
        let s = frame.bytes();
        let bytes = head(&s, frame.length());
        for k in (0..=frame.lags).chain(FAR) {
            let due = if k < frame.lags {
                Ok(has_data)
            } else {
                Err(Refusal::NoLag)
            };
            t.row(normal(frame.lags, bytes, k) == due, due.is_err());
        }
    }
    t
}

// Lag 0 of a frame with another centre count, to the last bit: the greatest lags by the greatest, the least and another
// count; the base frame's 1 and -46 by two counts. What they round to is from exact fractions.
pub fn quotients(base: Frame) -> Tally {
    let mut t = Tally::default();
    let full = base.with(Content::Full(16777215));
    for (frame, centre, re, im) in [
        (full, 16777215, 128.0, -128.0),
        (full, 1, 2147483520.0, -2147483520.0),
        (full, 16777213, 128.0000152587918, -128.0000152587918),
        (base, 3, 0.3333333333333333, -15.333333333333334),
        (base, 999, 0.001001001001001001, -0.04604604604604605),
    ] {
        let s = frame.bytes_with(3, centre, 0);
        let bytes = head(&s, frame.length());
        t.note(is_normal(frame.lags, bytes, 0, re, im));
    }
    t
}

// No ticks, and the last lag word of N = 2: 0 is within 128 × 0; 1 and -1 are beyond it. Written before request
// 2026-06, with 98 × 0 in the place of DATA_BIAS, a speed frame without ticks has the same bytes.
pub fn no_ticks(base: Frame) -> Tally {
    let mut t = Tally::default();
    let frame = base.with(Content::Full(0));
    for lag in [0, 1, u32::MAX] {
        let s = frame.bytes_with(frame.kind.heads() + 3, lag, 0);
        let due = unless(lag == 0, Refusal::BadField);
        expect_read(&mut t, frame.lags, &s, frame.length(), due);
    }
    t
}
