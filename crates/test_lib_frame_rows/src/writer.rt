// The writer from fields: every field at its limits and past them, the lag numbers, and the buffer.
use crate::damage::turned;
use crate::sweep::expect_whole;
use lta_spec::Refusal;
use test_lib_frames::ask::{Writing, expect_read, expect_write};
use test_lib_frames::build::{Content, Field, Frame, Near};
use test_lib_tools::bytes::twice;
use test_lib_tools::refusal::unless;
use test_lib_tools::report::Tally;

// "not 2N lag numbers": 2N; one, four and many more; none, two, one less and four less.
pub fn counts(base: Frame) -> Tally {
    let mut t = Tally::default();
    let s = base.bytes();
    for near in Near::ALL {
        let count = near.of(twice(base.lags));
        let due = unless(near == Near::Right, Refusal::BadField);
        let call = Writing {
            count,
            ..Writing::of(base)
        };
        expect_write(&mut t, call, &s, due);
    }
    t
}

// 10, "buffer shorter than a frame": just enough, a byte, a word and many more, which are kept; no room, a mark's, a
// byte and a word too few.
pub fn rooms(base: Frame) -> Tally {
    let mut t = Tally::default();
    let s = base.bytes();
    for near in Near::ALL {
        let room = near.of(base.length());
        let due = unless(room >= base.length(), Refusal::ShortBuffer);
        let call = Writing {
            room,
            ..Writing::of(base)
        };
        expect_write(&mut t, call, &s, due);
    }
    t
}

// "a lag beyond 98 × ticks", with 128 for 98: 128000 and -128000 are the limits of the base frame.
const LAGS: [(i32, Result<(), Refusal>); 6] = [
    (128000, Ok(())),
    (-128000, Ok(())),
    (128001, Err(Refusal::BadField)),
    (-128001, Err(Refusal::BadField)),
    (i32::MIN, Err(Refusal::BadField)),
    (i32::MAX, Err(Refusal::BadField)),
];

// Each of these as each lag word, read and written.
pub fn lags(base: Frame) -> Tally {
    let mut t = Tally::default();
    let heads = base.kind.heads();
    for j in 0..twice(base.lags) {
        for (lag, due) in LAGS {
            let s = base.bytes_with(heads + j, lag.cast_unsigned(), 0);
            expect_read(&mut t, base.lags, &s, base.length(), due);
            expect_write(&mut t, Writing::of(base), &s, due);
        }
    }
    t
}

// Fields that a frame of kind 2 is written with.
const WRITTEN: [(Field, u32); 20] = [
    // kind, cell, block
    (Field::Kind, 0x0000_0002),
    (Field::Cell, 0x0000_0000),
    (Field::Cell, 0x0000_000f),
    (Field::Block, 0x0000_0000),
    (Field::Block, 0x0000_00ff),
    // data bin to 999, bank
    (Field::Bin, 0x0000_0000),
    (Field::Bin, 0x0000_03e7),
    (Field::Bank, 0x0000_0000),
    (Field::Bank, 0x0000_0001),
    // ticks to 16,777,215, and as many as the centre count; counts to the ticks
    (Field::Ticks, 0x00ff_ffff),
    (Field::Ticks, 0x0000_0384),
    (Field::Centre, 0x0000_0000),
    (Field::Centre, 0x0000_03e8),
    (Field::Edge, 0x0000_0000),
    (Field::Edge, 0x0000_03e8),
    // W5 takes any 32 bits; W6 to 255,999,999
    (Field::Second, 0x0000_0000),
    (Field::Second, 0x8000_0000),
    (Field::Second, 0xffff_ffff),
    (Field::Offset, 0x0000_0000),
    (Field::Offset, 0x0f42_3fff),
];

// Fields that 16 is due to.
const REFUSED: [(Field, u32); 34] = [
    // "2 or 3, else 16", also where only bits too high for the field differ
    (Field::Kind, 0x0000_0000),
    (Field::Kind, 0x0000_0001),
    (Field::Kind, 0x0000_0004),
    (Field::Kind, 0x0000_0007),
    (Field::Kind, 0x0000_000a),
    (Field::Kind, 0x8000_0002),
    // "a field too wide for its bits": cell, block
    (Field::Cell, 0x0000_0010),
    (Field::Cell, 0x0020_0000),
    (Field::Cell, 0xffff_ffff),
    (Field::Block, 0x0000_0100),
    (Field::Block, 0x0100_0000),
    (Field::Block, 0xffff_ffff),
    // "data bin above 999", and past its 15 bits; bank
    (Field::Bin, 0x0000_03e8),
    (Field::Bin, 0x0000_7fff),
    (Field::Bin, 0x0000_8000),
    (Field::Bin, 0x0001_0000),
    (Field::Bin, 0xffff_ffff),
    (Field::Bank, 0x0000_0002),
    (Field::Bank, 0xffff_ffff),
    // "ticks above 16,777,215"; ticks below a count
    (Field::Ticks, 0x0100_0000),
    (Field::Ticks, 0xffff_ffff),
    (Field::Ticks, 0x0000_0383),
    (Field::Ticks, 0x0000_0000),
    // "a count above ticks"
    (Field::Centre, 0x0000_03e9),
    (Field::Centre, 0x0100_0000),
    (Field::Centre, 0xffff_ffff),
    (Field::Edge, 0x0000_03e9),
    (Field::Edge, 0x0100_0000),
    (Field::Edge, 0xffff_ffff),
    // "W6 above 255,999,999", and past its 29 bits
    (Field::Offset, 0x0f42_4000),
    (Field::Offset, 0x1000_0000),
    (Field::Offset, 0x2000_0000),
    (Field::Offset, 0x8000_0000),
    (Field::Offset, 0xffff_ffff),
];

// The base frame with another value in one field; in a table of kind 2.
fn changed(base: Frame, field: Field, value: u32) -> Frame {
    let value = match field {
        Field::Kind => turned(base.kind, value),
        _ => value,
    };
    base.with(Content::Changed(field, value))
}

// Each field of the tables, written; where no number is due, also read.
pub fn fields(base: Frame) -> Tally {
    let mut t = Tally::default();
    for (field, value) in WRITTEN {
        let frame = changed(base, field, value);
        expect_write(&mut t, Writing::of(frame), &frame.bytes(), Ok(()));
        expect_whole(&mut t, frame, 0);
    }
    for (field, value) in REFUSED {
        let frame = changed(base, field, value);
        let due = Err(Refusal::BadField);
        expect_write(&mut t, Writing::of(frame), &frame.bytes(), due);
    }
    t
}
