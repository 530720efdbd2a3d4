// Request 2026-03 at its limits: the ticks of one loss, those of six together, and the lent buffer. A run of five
// cells, whose totals need all eleven columns, is fresh but for its losses.
use lta_spec::{Loss, Refusal, Shape};
use test_lib_memory::map::{Layout, Place, Set};
use test_lib_row::agrees;
use test_lib_rules::call::{Answer, Call, LOSSES, Op, needed, shaped};
use test_lib_tools::report::Tally;
use test_lib_tools::words::put;

// "41 × (6C + 1) bytes".
const LENGTH: u64 = 1271;

fn shape() -> Shape {
    shaped([5, 2, 1, 1, 0, 4, 0])
}

const LAYOUT: Layout = Layout { lags: 2, bins: 1 };

// The ticks of the losses of a cell: of one, and of each other; in the last cell the one has so many more.
#[derive(Clone, Copy)]
struct Ledger {
    great: Loss,
    ticks: u64,
    others: u64,
    more: u64,
}

impl Ledger {
    fn ticks(self, c: u64, loss: Loss) -> u64 {
        match c {
            _ if loss != self.great => self.others,
            4 => self.ticks.saturating_add(self.more),
            _ => self.ticks,
        }
    }

    // Every tick counts at the edge, every other one in the centre. Stored sums of 0 are -128 × ticks.
    fn memory(self) -> [u64; 442] {
        let mut memory = [0; 442];
        for c in 0..5 {
            for loss in LOSSES {
                let ticks = self.ticks(c, loss);
                for (i, word) in (0..).zip([ticks, ticks, ticks / 2]) {
                    put(
                        &mut memory,
                        LAYOUT.at_cell(c, Place::Row(Set::Lost(loss), i)),
                        word,
                    );
                }
            }
        }
        memory
    }

    // Its page, in so many bytes.
    fn page(self, t: &mut Tally, bytes: u64, due: Answer) {
        let call = Call {
            op: Op::Page,
            cell: 0,
            words: needed(shape()),
            bytes,
        };
        let old = self.memory();
        let mut mem = old;
        t.row(agrees(shape(), &mut mem, &old, call, due), due.is_err());
    }
}

// The bytes lent.
const ROOM: [(u64, Answer); 6] = [
    (0, Err(Refusal::ShortBuffer)),
    (1, Err(Refusal::ShortBuffer)),
    (1270, Err(Refusal::ShortBuffer)),
    (1271, Ok(LENGTH)),
    (1272, Ok(LENGTH)),
    (1300, Ok(LENGTH)),
];

// One loss has all 2,147,483,648 ticks, and one more passes its limit; or it leaves one to each other, and one more
// passes the limit of all six.
pub fn pages() -> Tally {
    let mut t = Tally::default();
    for (great, (bytes, due)) in LOSSES.into_iter().zip(ROOM) {
        let alone = Ledger {
            great,
            ticks: 2_147_483_648,
            others: 0,
            more: 0,
        };
        alone.page(&mut t, LENGTH, Ok(LENGTH));
        Ledger { more: 1, ..alone }.page(&mut t, LENGTH, Err(Refusal::Damaged));
        let together = Ledger {
            great,
            ticks: 2_147_483_643,
            others: 1,
            more: 0,
        };
        together.page(&mut t, LENGTH, Ok(LENGTH));
        Ledger {
            more: 1,
            ..together
        }
        .page(&mut t, LENGTH, Err(Refusal::Damaged));
        together.page(&mut t, bytes, due);
    }
    t
}
