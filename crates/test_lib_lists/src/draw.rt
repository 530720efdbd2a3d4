// The calls of a list: call i of a run depends on the list and on i alone.
use lta_spec::Shape;
use test_lib_rules::call::{Bin, Call, ORDERED, Op, needed, shaped};
use test_lib_rules::history::Samples;
use test_lib_rules::page;
use test_lib_tools::bytes;
use test_lib_tools::bytes::Kind;
use test_lib_tools::random::below;

// A list: its shape, from C to Z, and the seed of its draws and of the sampler's bytes. Its first steps are without
// refusals: so many ticks that a cell is held off.
#[derive(Clone, Copy, Debug, PartialEq, Eq)]
pub struct List {
    pub values: [u64; 7],
    pub seed: u64,
    pub first_steps: u64,
}

// A step of a list.
#[derive(Clone, Copy)]
struct Step {
    list: List,
    shape: Shape,
    i: u64,
}

// A number that is never below the limit.
fn past(which: u64, limit: u64) -> u64 {
    match which {
        0 | 1 => limit,
        2 => (1 << 32) - 1,
        3 => 1 << 32,
        4 => 1 << 63,
        _ => u64::MAX,
    }
}

// A length to lend: now and then none, one less, one more or another than is right.
fn near(which: u64, right: u64, other: u64) -> u64 {
    match which {
        0 => 0,
        1 => right.saturating_sub(1),
        2 => right.saturating_add(1),
        3 => other,
        _ => right,
    }
}

// The limits that a shape value must not pass, from C to Z; S + M is another.
const MOST: [u64; 7] = [16, 128, 1000, 256, 256, 256_000_000, 2_147_483_647];

// The value at j of a shape, out of its limits: 0 where that is, or one past the greatest.
fn bad_value(which: u64, j: usize) -> u64 {
    let over = MOST.get(j).map_or(0, |most| most + 1);
    match which {
        0 | 1 => if j == 4 || j == 6 { over } else { 0 },
        _ => past(which - 2, over),
    }
}

impl Step {
    // Draw j of the step.
    fn random(self, j: u64, end: u64) -> u64 {
        let draw = self.i.wrapping_mul(64).wrapping_add(j);
        below(!self.list.seed, draw, end)
    }

    // In every other 250 steps bins get Ready fast.
    fn is_busy(self) -> bool {
        self.i.saturating_sub(self.list.first_steps) / 250 % 2 == 1
    }

    // Mostly a number below the limit.
    fn argument(self, j: u64, limit: u64) -> u64 {
        if self.random(j, 40) == 0 {
            past(self.random(j.wrapping_add(1), 6), limit)
        } else {
            self.random(j.wrapping_add(2), limit)
        }
    }

    // Half of the calls are ticks; where bins get Ready fast, two of three are dumps or integrations.
    fn op(self) -> Op {
        let letters = if self.is_busy() {
            b"TTTTDDDDDDDDDDDDIIIIIIIIIIIIIIEEEEKKKRFP".as_slice()
        } else {
            b"TTTTTTTTTTTTTTTTTTTTTDDDDDDDDIIIIIIEEERRFPK"
        };
        let at = self.random(0, letters.len() as u64);
        match bytes::get(letters, at as usize) {
            b'T' => self.tick(),
            b'D' => self.dump(),
            b'I' => Op::Integrate,
            b'E' => self.emission(),
            b'R' => self.reading(),
            b'F' => Op::Forecast,
            b'P' => Op::Page,
            _ => Op::Pick(None),
        }
    }

    // The samples are the sampler's; here stand the bits that no validity byte has, in every 40th tick some of them.
    fn tick(self) -> Op {
        let validity = if self.random(28, 40) == 0 {
            4 * (self.random(29, 64) % 64) as u8
        } else {
            0
        };
        Op::Tick(Samples {
            validity,
            ..Samples::default()
        })
    }

    // A phase bin, mostly one that fits.
    fn dump(self) -> Op {
        let fit = self.shape.bins.checked_div(self.shape.blocks);
        Op::Dump {
            command: self.command(),
            bank: self.argument(12, 2),
            phase: self.argument(16, fit.unwrap_or(0)),
        }
    }

    // Every command from 000 to 1000b, those that are accepted more often, and now and then a far one; where bins get
    // Ready fast, mostly 010.
    fn command(self) -> u64 {
        let digits = if self.is_busy() {
            b"0123456780122222222222222222"
        } else {
            b"0123456780000111122223333447"
        };
        match digits.get(self.random(8, 29) as usize) {
            Some(digit) => u64::from(digit % 16),
            None => past(self.random(9, 6), 9),
        }
    }

    fn emission(self) -> Op {
        Op::Emit(Bin {
            bank: self.argument(8, 2),
            bin: self.argument(12, self.shape.bins),
        })
    }

    // Loss 0 is none.
    fn reading(self) -> Op {
        Op::Reading {
            lag: self.argument(8, self.shape.lags),
            loss: self.argument(12, 7),
        }
    }

    // Words of memory.
    fn words(self) -> u64 {
        near(self.random(4, 160), needed(self.shape), 43800)
    }

    // The bytes of a tick.
    fn samples(self) -> u64 {
        let right = self.shape.cells.saturating_mul(3);
        near(self.random(5, 120), right, right.saturating_add(3))
    }

    // The buffer of a dump, an emission, a page or a pick: now and then a long one.
    fn room(self, right: u64) -> u64 {
        let which = match self.random(5, 16) {
            4 => 3,
            x => x,
        };
        near(which, right, 4100)
    }

    fn bytes(self, op: Op) -> u64 {
        match op {
            Op::Tick(_) => self.samples(),
            Op::Dump { .. } => self.room(Kind::Speed.length(self.shape.lags) as u64),
            Op::Page => self.room(page::length(self.shape.cells)),
            _ => self.room(Kind::Binned.length(self.shape.lags) as u64),
        }
    }

    fn call(self) -> Call {
        let op = self.op();
        Call {
            op,
            words: self.words(),
            bytes: self.bytes(op),
            cell: self.argument(24, self.shape.cells),
        }
    }

    // One of the first steps: a tick; every 65,536 steps an ordered loss of the last cell's Open; behind 524,288 steps,
    // where cell 0 is about to be held off, every other one a forecast of that cell.
    fn first_call(self) -> Call {
        let Shape { cells, .. } = self.shape;
        let (op, cell) = if self.i % 65536 == 65535 {
            let discard = Op::Dump {
                command: ORDERED,
                bank: 0,
                phase: 0,
            };
            (discard, cells.saturating_sub(1))
        } else if self.i > 524_288 && self.i % 2 == 1 {
            (Op::Forecast, 0)
        } else {
            (Op::Tick(Samples::default()), 0)
        };
        Call {
            op,
            cell,
            words: needed(self.shape),
            bytes: cells.saturating_mul(3),
        }
    }

    // The shape that is lent: mostly the run's.
    fn lent_shape(self) -> Shape {
        let mut values = self.list.values;
        let drawn = self.random(32, 400).checked_sub(1);
        if let Some(j) = drawn {
            if let Some(value) = values.get_mut(j as usize) {
                *value = bad_value(self.random(33, 8), j as usize);
            }
        }
        shaped(values)
    }
}

impl List {
    pub fn shape(self) -> Shape {
        shaped(self.values)
    }

    fn step(self, i: u64) -> Step {
        Step {
            list: self,
            shape: self.shape(),
            i,
        }
    }

    // Call i.
    pub fn call(self, i: u64) -> Call {
        if i < self.first_steps {
            self.step(i).first_call()
        } else {
            self.step(i).call()
        }
    }

    // The shape that is lent to call i.
    pub fn lent_shape(self, i: u64) -> Shape {
        if i < self.first_steps {
            self.shape()
        } else {
            self.step(i).lent_shape()
        }
    }
}
