// Request 2026-07: the bin that a pick takes, worked out here as the one that stands nearest behind the places, cells
// first. Each Ready bin has ticks and a stamp of its own.
use lta_spec::{Refusal, Shape};
use test_lib_memory::cells::Run;
use test_lib_memory::map::{Field, Layout, Place, Set, State};
use test_lib_memory::picks::Taken;
use test_lib_row::agrees;
use test_lib_rules::call::{Call, Op, needed, shaped};
use test_lib_rules::places::behind;
use test_lib_tools::random::below;
use test_lib_tools::refusal::unless;
use test_lib_tools::report::Tally;
use test_lib_tools::words::put;

// The answer: "Length 34 + 8N bytes" of N = 2.
const SENT: u64 = 50;

// t: no stamp here passes it.
const NOW: u64 = 2000;

// Does a pick say what is due, leave what is due, and take this bin where it is accepted?
fn takes(s: Shape, mem: &mut [u64], old: &[u64], due: Result<Taken, Refusal>) -> bool {
    let call = Call {
        op: Op::Pick(None),
        cell: 0,
        words: needed(s),
        bytes: SENT,
    };
    let taken = Run::of(s, old).and_then(|run| run.picked());
    agrees(s, mem, old, call, due.map(|_| SENT)) && taken == due.ok()
}

fn put_field(mem: &mut [u64], layout: Layout, c: u64, field: Field, v: u64) {
    put(mem, layout.at_cell(c, Place::Field(field)), v);
}

// A bin becomes Ready, with a stamp and ticks of its own, without a valid product.
fn put_ready(mem: &mut [u64], layout: Layout, Taken { cell, q }: Taken) {
    let own = cell.saturating_mul(8).saturating_add(q);
    put(
        mem,
        layout.at_cell(cell, Place::State(q)),
        State::Ready as u64,
    );
    put(mem, layout.at_cell(cell, Place::Stamp(q)), own);
    put(
        mem,
        layout.at_cell(cell, Place::Row(Set::Bin(q), 0)),
        own.saturating_add(1),
    );
}

// Three cells with four bins each: bin q of cell c is Ready where bit 4 c + q of a choice is set.
const THREE: Layout = Layout { lags: 2, bins: 2 };

fn three() -> Shape {
    shaped([3, 2, 2, 1, 0, 4, 0])
}

fn is_ready(choice: u64, Taken { cell, q }: Taken) -> bool {
    let bit = cell.wrapping_mul(4).wrapping_add(q);
    (choice >> (bit % 64)) % 2 == 1
}

// All twelve.
const ALL: u64 = 0xfff;

// The places of row r: the cell at which the pick starts, and the bin of each cell.
fn next_cell(r: u64) -> u64 {
    below(1, r, 3)
}

fn next_bin(r: u64, c: u64) -> u64 {
    below(2, r.wrapping_mul(4).wrapping_add(c), 4)
}

fn build_cell(mem: &mut [u64], choice: u64, r: u64, cell: u64) {
    let mut ready = 0u64;
    for q in 0..4 {
        let bin = Taken { cell, q };
        if is_ready(choice, bin) {
            put_ready(mem, THREE, bin);
            ready = ready.saturating_add(1);
        }
    }
    put_field(mem, THREE, cell, Field::Ready, ready);
    put_field(mem, THREE, cell, Field::NextBin, next_bin(r, cell));
}

// A run that is fresh but for its t, the Ready bins of a choice and the places of row r.
fn build(choice: u64, r: u64) -> [u64; 320] {
    let mut mem = [0; 320];
    put(&mut mem, 0, NOW);
    put(&mut mem, THREE.start(3), next_cell(r));
    for c in 0..3 {
        build_cell(&mut mem, choice, r, c);
    }
    mem
}

// How far a bin stands behind the places of row r.
fn distance(r: u64, Taken { cell, q }: Taken) -> u64 {
    let cells = cell.wrapping_add(3).wrapping_sub(next_cell(r)) % 3;
    let bins = q.wrapping_add(4).wrapping_sub(next_bin(r, cell)) % 4;
    4 * cells + bins
}

fn nearest(choice: u64, r: u64) -> Option<Taken> {
    (0..12)
        .map(|i| Taken {
            cell: i / 4,
            q: i % 4,
        })
        .filter(|&bin| is_ready(choice, bin))
        .min_by_key(|&bin| distance(r, bin))
}

// Every choice of Ready bins.
pub fn choices() -> Tally {
    let mut t = Tally::default();
    for r in 0..4096 {
        let old = build(r, r);
        let mut mem = old;
        let due = nearest(r, r).ok_or(Refusal::NothingReady);
        t.row(takes(three(), &mut mem, &old, due), due.is_err());
    }
    t
}

// Pick i of a run where all bins are Ready: "emitted within C × 2B successful picks", each cell in its turn, and in a
// cell each bin; behind them there is none.
fn pick_of_all(r: u64, i: u64) -> Result<Taken, Refusal> {
    let cell = behind(next_cell(r), i, 3);
    let q = behind(next_bin(r, cell), i / 3, 4);
    unless(i < 12, Refusal::NothingReady).map(|()| Taken { cell, q })
}

// Thirteen rows from the places of each row.
pub fn all() -> Tally {
    let mut t = Tally::default();
    for r in 0..64 {
        let mut mem = build(ALL, r);
        for i in 0..13 {
            let old = mem;
            let due = pick_of_all(r, i);
            t.row(takes(three(), &mut mem, &old, due), due.is_err());
        }
    }
    t
}

// The longest rounds, C, B, the places at which the pick starts, cell and bin, and the one Ready bin, its cell and its
// place: no way, and the longest, of 2,000 bins, and of 16 cells with one or two bins to a bank.
const LONGEST: [[u64; 6]; 12] = [
    [1, 1000, 0, 0, 0, 0],
    [1, 1000, 0, 0, 0, 1999],
    [1, 1000, 0, 1, 0, 0],
    [1, 1000, 0, 999, 0, 1000],
    [1, 1000, 0, 1000, 0, 999],
    [1, 1000, 0, 1999, 0, 1999],
    [1, 1000, 0, 1999, 0, 1998],
    [16, 1, 0, 0, 15, 1],
    [16, 1, 15, 1, 15, 1],
    [16, 1, 15, 1, 0, 0],
    [16, 2, 15, 3, 14, 2],
    [16, 2, 1, 1, 0, 0],
];

// A run that is fresh but for its t, the places and the bin.
fn round([cells, bins, next_cell, next_bin, cell, q]: [u64; 6]) -> bool {
    let s = shaped([cells, 2, bins, 1, 0, 4, 0]);
    let taken = Taken { cell, q };
    let Some(layout) = Layout::of(s) else {
        return false;
    };
    let mut old = [0; 18072];
    put(&mut old, 0, NOW);
    put(&mut old, layout.start(cells), next_cell);
    put_field(&mut old, layout, cell, Field::Ready, 1);
    put_field(&mut old, layout, cell, Field::NextBin, next_bin);
    put_ready(&mut old, layout, taken);
    let mut mem = old;
    takes(s, &mut mem, &old, Ok(taken))
}

pub fn longest() -> Tally {
    let mut t = Tally::default();
    for row in LONGEST {
        t.note(round(row));
    }
    t
}
