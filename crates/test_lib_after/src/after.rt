// The words that are due after an accepted call on any words of work memory, from those before it.
use crate::changes::{Dump, Integration, Tick, Word, emitted, picked};
use test_lib_memory::cells::{Cell, Run};
use test_lib_rules::call::{Call, IDLE, Op};
use test_lib_rules::places::behind;
use test_lib_tools::words::{get, head};

// What an accepted call does to a cell that it changes.
#[derive(Drop)]
enum Change<'a> {
    Tick(Tick<'a>),
    Dump(Dump<'a>),
    Integration(Integration<'a>),
    Emission(u64),
    Pick(Cell<'a>, u64),
}

impl<'a> Change<'a> {
    // That of a call in the cell that it is about; a pick says which bin it takes.
    fn in_cell(cell: Cell<'a>, op: Op) -> Option<Change<'a>> {
        let layout = cell.run.layout;
        match op {
            Op::Dump { command: IDLE, .. } => None,
            Op::Dump {
                command,
                bank,
                phase,
            } => Some(Change::Dump(Dump {
                cell,
                command,
                bank,
                phase,
            })),
            Op::Integrate => Some(Change::Integration(Integration::of(cell))),
            Op::Emit(bin) => Some(Change::Emission(layout.number(bin))),
            Op::Pick(Some(bin)) => Some(Change::Pick(cell, layout.number(bin))),
            _ => None,
        }
    }

    // That of a call in cell c; a tick is about every one.
    fn of(old: &'a Run<'a>, k: Call, c: u64) -> Option<Change<'a>> {
        let cell = old.cell(c);
        match k.op {
            Op::Tick(samples) => Some(Change::Tick(Tick { cell, samples })),
            op if c == k.cell => Change::in_cell(cell, op),
            _ => None,
        }
    }

    // The word that is due.
    fn word(&self, word: Word) -> u64 {
        match self {
            Change::Tick(tick) => tick.word(word),
            Change::Dump(dump) => dump.word(word),
            Change::Integration(integration) => integration.word(word),
            Change::Emission(q) => emitted(*q, word),
            Change::Pick(cell, q) => picked(*cell, *q, word),
        }
    }
}

// Are the words of cell c what is due? A cell that the call does not change keeps them: it is compared whole, and only
// where that fails word by word, since a memory that ends early reads as 0 there.
fn is_cell_right(now: &Run<'_>, old: &Run<'_>, k: Call, c: u64) -> bool {
    let layout = old.layout;
    let count = layout.cell_words();
    let words = head(now.cell(c).words, count);
    let before = head(old.cell(c).words, count);
    match Change::of(old, k, c) {
        None => words == before || (0..count).all(|j| get(words, j) == get(before, j)),
        Some(due) => (0..count).all(|j| {
            let word = Word {
                place: layout.place(j),
                old: get(before, j),
            };
            get(words, j) == due.word(word)
        }),
    }
}

// Are t, and the cell at which the next pick starts, what is due?
fn is_run_right(now: &Run<'_>, old: &Run<'_>, k: Call) -> bool {
    let ticks = u64::from(matches!(k.op, Op::Tick(_)));
    let next = match k.op {
        Op::Pick(_) => behind(k.cell, 1, old.shape.cells),
        _ => old.next_cell(),
    };
    now.now() == old.now().wrapping_add(ticks) && now.next_cell() == next
}

// Are all words of the run and of its cells what is due?
pub fn is_right(now: &Run<'_>, old: &Run<'_>, k: Call) -> bool {
    is_run_right(now, old, k) && (0..old.shape.cells).all(|c| is_cell_right(now, old, k, c))
}
