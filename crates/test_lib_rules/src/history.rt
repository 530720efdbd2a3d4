// The bytes that a sampler gives: a function of the seed, the cell and the tick number. What a tick adds is worked out
// from them for one lag, by document 01's "One tick" and request 2026-06. A negative number is in two's complement.
use std::ops::Range;
use test_lib_tools::random::draw;

// What is asked of a lag: its I sum, its Q sum, or how many ticks have a valid product.
#[derive(Clone, Copy, Debug, PartialEq, Eq)]
pub enum Quantity {
    InPhase,
    Quadrature,
    Valid,
}

// "three bytes for each cell: X, Y, and a validity byte", "bit 0 for X and bit 1 for Y, the other bits 0".
#[derive(Clone, Copy, Debug, Default, PartialEq, Eq)]
pub struct Samples {
    pub x: u8,
    pub y: u8,
    pub validity: u8,
}

impl Samples {
    pub fn x(self) -> Sample {
        Sample {
            byte: self.x,
            valid: self.validity & 1 != 0,
        }
    }

    pub fn y(self) -> Sample {
        Sample {
            byte: self.y,
            valid: self.validity & 2 != 0,
        }
    }
}

// A sample with its phase, and its validity.
#[derive(Clone, Copy, Debug, PartialEq, Eq)]
pub struct Sample {
    pub byte: u8,
    pub valid: bool,
}

impl Sample {
    // Its register entry by docs/LAYOUT.md: 8 more in its low four bits, modulo 16, and 256 where it is valid.
    pub fn entry(self) -> u64 {
        u64::from(self.byte ^ 8) + 256 * u64::from(self.valid)
    }

    // The sample of an entry.
    pub fn of_entry(entry: u64) -> Sample {
        Sample {
            byte: (entry % 256) as u8 ^ 8,
            valid: entry / 256 % 2 == 1,
        }
    }

    // "Low four bits: sample, two's complement".
    fn value(self) -> i64 {
        let low = i64::from(self.byte % 16);
        if low < 8 { low } else { low - 16 }
    }

    fn phase(self) -> u8 {
        self.byte / 16
    }
}

// "Five-level table w for d = 0 to 15".
fn weight(d: u8) -> i64 {
    match d {
        0 | 1 | 15 => 2,
        2 | 3 | 13 | 14 => 1,
        4 | 12 => 0,
        5 | 6 | 10 | 11 => -1,
        _ => -2,
    }
}

// "product × w(d)".
fn product(x: Sample, y: Sample, d: u8) -> u64 {
    x.value()
        .wrapping_mul(y.value())
        .wrapping_mul(weight(d))
        .cast_unsigned()
}

// What two samples add, "The product is valid when both samples are; otherwise it adds 0". "With d = (X phase - Y
// phase) mod 16", and for Q "(d+12) mod 16".
pub fn pair(x: Sample, y: Sample, quantity: Quantity) -> u64 {
    if !(x.valid && y.valid) {
        return 0;
    }
    let d = x.phase().wrapping_sub(y.phase()) % 16;
    match quantity {
        Quantity::InPhase => product(x, y, d),
        Quantity::Quadrature => product(x, y, (d + 12) % 16),
        Quantity::Valid => 1,
    }
}

// The sampler of a cell.
#[derive(Clone, Copy, Debug, PartialEq, Eq)]
pub struct Sampler {
    pub seed: u64,
    pub cell: u64,
}

// Sample -8 with a phase.
fn extreme(phase: u64) -> u8 {
    (8 + 16 * (phase % 16)) as u8
}

impl Sampler {
    // Four turns of 32 ticks each, in which every cell is one further than the cell before it: any samples, any
    // validity; -8 throughout, with X turning by one phase every 12 ticks, so that what a tick adds goes from 128 to
    // -128 and back; any samples, three of four invalid; 7 or -8 with phase 0. The three bytes come from one draw:
    // neighbouring draws have low bits that go together.
    pub fn samples(self, tick: u64) -> Samples {
        let drawn = draw(self.seed, tick.wrapping_mul(16).wrapping_add(self.cell));
        let [_, x, y, validity, ..] = drawn.to_le_bytes();
        match (tick / 32).wrapping_add(self.cell) % 4 {
            0 => Samples {
                x,
                y,
                validity: validity % 4,
            },
            1 => Samples {
                x: extreme(tick / 12),
                y: extreme(0),
                validity: 3,
            },
            2 => Samples {
                x,
                y,
                validity: (validity % 4) & (validity / 4),
            },
            _ => Samples {
                x: 7 + x % 2,
                y: 7 + y % 2,
                validity: 3,
            },
        }
    }

    // Those of some ticks ago. Before tick 0 there are none.
    pub fn ago(self, tick: u64, delay: u64) -> Option<Samples> {
        tick.checked_sub(delay).map(|then| self.samples(then))
    }

    // "Lag k multiplies X from (k+1) div 2 ticks ago by Y from N/2 - (k div 2) ticks ago". "Before tick 0 everything is
    // invalid".
    fn term(self, n: u64, k: u64, quantity: Quantity, tick: u64) -> u64 {
        let x = self.ago(tick, k.div_ceil(2));
        let y = self.ago(tick, (n / 2).saturating_sub(k / 2));
        match (x, y) {
            (Some(x), Some(y)) => pair(x.x(), y.y(), quantity),
            _ => 0,
        }
    }

    // What some ticks add at lag k of N.
    pub fn stretch(self, n: u64, k: u64, quantity: Quantity, ticks: Range<u64>) -> u64 {
        ticks.fold(
            0,
            |total: u64, tick| total.wrapping_add(self.term(n, k, quantity, tick)),
        )
    }
}
