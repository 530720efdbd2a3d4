// Request 2026-06: the bytes of a tick, the entries that it shifts, and sums as great as ticks can make them.
use crate::arguments::on_base;
use crate::binning::{BASE, with_row};
use lta_spec::{Loss, Refusal};
use test_lib_memory::base::{Base, Memory, PLAIN, shape, with_word};
use test_lib_memory::map::{Place, Set, Stream, greatest};
use test_lib_row::held_to;
use test_lib_rules::call::{Answer, Call, Op};
use test_lib_rules::history::Samples;
use test_lib_tools::report::Tally;

// A tick of these bytes; what is wrong in the validity byte is so in one cell alone.
fn tick(x: u8, y: u8, validity: u8, cell: u64) -> Call {
    on_base(Op::Tick(Samples { x, y, validity }), cell)
}

// Memory with x as a word of the last cell.
fn with(memory: Memory, place: Place, x: u64) -> Memory {
    with_word(memory, BASE.at_cell(1, place), x)
}

// The base memory of N = 2 with these newest entries in the registers of the last cell. A tick multiplies its X by this
// Y in lag 0, and this X by this Y in lag 1.
fn with_entries(x: u64, y: u64) -> Memory {
    let old = Base::of(2, PLAIN).memory();
    with(
        with(old, Place::Entry(Stream::X, 0), x),
        Place::Entry(Stream::Y, 0),
        y,
    )
}

// The entry of a valid -8 with phase 0.
const LEAST: u64 = 256;

// Every validity byte, in the first cell or in the last: "19 when a validity byte has another bit set".
pub fn validity() -> Tally {
    let mut t = Tally::default();
    let old = with_entries(LEAST, LEAST);
    for cell in 0..2 {
        for validity in 0..=255 {
            let due = if validity > 3 {
                Err(Refusal::BadValidity)
            } else {
                Ok(0)
            };
            held_to(
                &mut t,
                shape(2),
                &old,
                tick(0x35, 0x2b, validity, cell),
                due,
            );
        }
    }
    t
}

// Every byte as X, and in the other order as Y, with each validity byte.
pub fn bytes() -> Tally {
    let mut t = Tally::default();
    let old = with_entries(LEAST, LEAST);
    for validity in 0..4 {
        for x in 0..=255u8 {
            held_to(&mut t, shape(2), &old, tick(x, 255 - x, validity, 0), Ok(0));
        }
    }
    t
}

// Every entry as that of X or of Y. Above 511 it is "one that no sampler byte gives".
pub fn entries() -> Tally {
    let mut t = Tally::default();
    for entry in 0..514 {
        let due = if entry > 511 {
            Err(Refusal::Damaged)
        } else {
            Ok(0)
        };
        held_to(
            &mut t,
            shape(2),
            &with_entries(entry, LEAST),
            tick(8, 8, 3, 0),
            due,
        );
        held_to(
            &mut t,
            shape(2),
            &with_entries(LEAST, entry),
            tick(8, 8, 3, 0),
            due,
        );
    }
    t
}

// The ticks of Open: none, one, one less than all, and all 524,288, where the tick goes to loss 6 and one cell is held
// off.
const TICKS: [(u64, u64); 4] = [(0, 0), (1, 0), (524_287, 0), (524_288, 1)];

// Memory where Open of so many ticks, and loss 6 of 2,147,483,647, have I of 128 × ticks and Q of -128 × ticks in every
// lag, and the registers -8, that of X with a phase.
fn at_peak(ticks: u64, phase: u8) -> Memory {
    let old = with_entries(LEAST + 16 * u64::from(phase), LEAST);
    let lost = with_row(old, Set::Lost(Loss::Holdoff), 2_147_483_647);
    with_row(lost, Set::Open, ticks)
}

// I of Open at lag 1 is one more than 128 × ticks.
fn past_peak(memory: Memory, ticks: u64) -> Memory {
    with(
        memory,
        Place::Row(Set::Open, 5),
        greatest(ticks).saturating_add(1),
    )
}

// With phase 0 the tick adds -8 × -8 × 2 = 128 to I, with phase 12 it adds -8 × -8 × -2 = -128 to Q, and no sum passes
// 128 × ticks; or one did before.
pub fn peaks() -> Tally {
    let mut t = Tally::default();
    for (ticks, held_off) in TICKS {
        for phase in [0, 12] {
            let old = at_peak(ticks, phase);
            let k = tick(8 + 16 * phase, 8, 3, 0);
            held_to(&mut t, shape(2), &old, k, Ok(held_off));
            held_to(
                &mut t,
                shape(2),
                &past_peak(old, ticks),
                k,
                Err(Refusal::Damaged),
            );
        }
    }
    t
}
