// A call with its arguments, and what the papers say of them: the refusals that come before any look at the run, and
// the block and the data bin of a dump.
ghost use Rattle.std.specs.Prelude.{◌≤◌};

use crate::history::Samples;
use lta_spec::{Loss, Refusal, Shape};
use test_lib_tools::bytes::Kind;
use test_lib_tools::refusal::unless;

// What a call answers, as a number of the papers, or why it is refused.
pub type Answer = Result<u64, Refusal>;

// Losses: "1 ordered, 2 overrun, 3 full, 4 replaced, 5 wide, 6 holdoff".
pub const LOSSES: [Loss; 6] = [
    Loss::Ordered,
    Loss::Overrun,
    Loss::Full,
    Loss::Replaced,
    Loss::Wide,
    Loss::Holdoff,
];

// The number of one.
pub fn loss_number(loss: Loss) -> u64
    ensures { result ≤ 6 }
{
    match loss {
        Loss::Ordered => 1,
        Loss::Overrun => 2,
        Loss::Full => 3,
        Loss::Replaced => 4,
        Loss::Wide => 5,
        Loss::Holdoff => 6,
    }
}

// The commands of a dump that the models speak of: save, add, last, a speed dump, and the two that no set is held by.
pub const SAVE: u64 = 0b000;

pub const ADD: u64 = 0b001;

pub const LAST: u64 = 0b010;

pub const SPEED_DUMP: u64 = 0b011;

pub const ORDERED: u64 = 0b100;

pub const IDLE: u64 = 0b111;

// A data bin of a cell.
#[derive(Clone, Copy, Debug, PartialEq, Eq)]
pub struct Bin {
    pub bank: u64,
    pub bin: u64,
}

impl Bin {
    // The one at place q of the round: "bank 0's bins and then bank 1's", of so many bins each.
    pub fn at(q: u64, bins: u64) -> Bin {
        match q.checked_sub(bins) {
            None => Bin { bank: 0, bin: q },
            Some(bin) => Bin { bank: 1, bin },
        }
    }

    // Its place in the round.
    pub fn place(self, bins: u64) -> u64 {
        match self.bank {
            0 => self.bin,
            _ => bins.wrapping_add(self.bin),
        }
    }
}

// A call, with the arguments that it alone has.
#[derive(Clone, Copy, Debug, PartialEq, Eq)]
pub enum Op {
    // The bytes of every cell, but that in a list X and Y and their validity are the sampler's. The other bits of the
    // validity byte stand in that of the call's cell alone.
    Tick(Samples),
    Dump { command: u64, bank: u64, phase: u64 },
    Integrate,
    Emit(Bin),
    Reading { lag: u64, loss: u64 },
    Forecast,
    Page,
    // The bin that it takes is no argument of a pick; nor is the cell. They stand here where a model has found them.
    Pick(Option<Bin>),
}

impl Op {
    // The frame that the call writes where it is accepted: an emission's or a pick's, a speed dump's.
    pub fn frame(self) -> Option<Kind> {
        match self {
            Op::Emit(_) | Op::Pick(_) => Some(Kind::Binned),
            Op::Dump {
                command: SPEED_DUMP,
                ..
            } => Some(Kind::Speed),
            _ => None,
        }
    }
}

#[derive(Clone, Copy, Debug, PartialEq, Eq)]
pub struct Call {
    pub op: Op,
    pub cell: u64,
    // Words of work memory lent.
    pub words: u64,
    // Bytes lent: a tick's samples, or the buffer of a dump, an emission, a page or a pick.
    pub bytes: u64,
}

// A shape, from C to Z of document 01.
pub fn shaped([cells, lags, bins, blocks, start, rate, second]: [u64; 7]) -> Shape {
    Shape {
        cells,
        lags,
        bins,
        blocks,
        start,
        rate,
        second,
    }
}

// By "Shape of a run", whose limits "a shape value out of its limits" is out of.
pub fn is_shape(s: Shape) -> bool {
    let cells = (1..=16).contains(&s.cells);
    let lags = (2..=128).contains(&s.lags) && s.lags % 2 == 0;
    let bins = (1..=1000).contains(&s.bins);
    let blocks = (1..=256).contains(&s.blocks) && s.start.saturating_add(s.blocks) <= 256;
    let clock = (1..=256_000_000).contains(&s.rate) && s.second <= 2_147_483_647;
    cells && lags && bins && blocks && clock
}

// The words of a cell, by docs/LAYOUT.md: 36 + 17 N + 10 B + 4 B N.
pub fn cell_words(lags: u64, bins: u64) -> u64
    ensures { 36 ≤ result }
{
    let of_bins = lags
        .saturating_mul(4)
        .saturating_add(10)
        .saturating_mul(bins);
    lags.saturating_mul(17)
        .saturating_add(of_bins)
        .saturating_add(36)
}

// Those of a run.
pub fn needed(s: Shape) -> u64 {
    s.cells
        .saturating_mul(cell_words(s.lags, s.bins))
        .saturating_add(2)
}

// "Accepted only if .. (phase + 1) × M ≤ B".
fn fits(s: Shape, phase: u64) -> bool {
    phase.saturating_add(1).saturating_mul(s.blocks) <= s.bins
}

// "5: no such cell", and what follows it. "6: command 011, 101, 110 or above 111", but "Refusal 6 no longer covers
// 011". "7: bank not 0 or 1, or the data bin rule broken", which "concerns only bank and phase"; of an emission "bank,
// or data bin not below B". "12: no such lag or loss".
fn cell_tested(s: Shape, k: Call) -> Result<(), Refusal> {
    unless(k.cell < s.cells, Refusal::NoCell)?;
    match k.op {
        Op::Dump {
            command,
            bank,
            phase,
        } => {
            unless(matches!(command, 0..=4 | 7), Refusal::BadCommand)?;
            unless(bank < 2 && fits(s, phase), Refusal::NoBin)
        }
        Op::Emit(Bin { bank, bin }) => unless(bank < 2 && bin < s.bins, Refusal::NoBin),
        Op::Reading { lag, loss } => unless(lag < s.lags && matches!(loss, 1..=6), Refusal::NoLag),
        _ => Ok(()),
    }
}

// "Refusal 3 tests for 3C bytes"; "19 when a validity byte has another bit set, tested after 3 and before 4": that of
// the call's cell, where there is such a cell.
fn tick_tested(s: Shape, k: Call, validity: u8) -> Result<(), Refusal> {
    unless(k.bytes == s.cells.wrapping_mul(3), Refusal::WrongSamples)?;
    unless(validity < 4 || k.cell >= s.cells, Refusal::BadValidity)
}

// The first refusal that the arguments alone give. "Setup and every call on a run test 1, then 2, first"; a page and a
// pick have no other argument that they test.
pub fn tested(s: Shape, k: Call) -> Result<(), Refusal> {
    unless(is_shape(s), Refusal::BadShape)?;
    unless(k.words == needed(s), Refusal::WrongMemory)?;
    match k.op {
        Op::Tick(Samples { validity, .. }) => tick_tested(s, k, validity),
        Op::Page | Op::Pick(_) => Ok(()),
        _ => cell_tested(s, k),
    }
}

// The command that counts as a cell's last one. Of 011: "For the block counter it counts as a 001".
pub fn counted(command: u64) -> u64 {
    match command {
        SPEED_DUMP => ADD,
        _ => command,
    }
}

// A cell's last command as docs/LAYOUT.md stores it: 0 for none, else the command + 1.
pub fn stored_command(last: Option<u64>) -> u64 {
    last.map_or(0, |command| counted(command).wrapping_add(1))
}

// "It returns to S on 100, and on a 010 whose cell's last command before it was 000 or 001"; "A cell's first dump but
// 111 in a fresh run uses S".
fn returns(last: Option<u64>, command: u64) -> bool {
    matches!(
        (last, command),
        (None, _) | (_, ORDERED) | (Some(SAVE | ADD), LAST)
    )
}

// The block of a dump but 111, counted from S, where the one before it is given: "any other accepted dump but 111
// moves it one on, from S + M - 1 back to S".
pub fn next_block(before: u64, last: Option<u64>, command: u64, blocks: u64) -> u64 {
    let next = before.saturating_add(1);
    if returns(last, command) || next >= blocks {
        0
    } else {
        next
    }
}

// "Data bin = phase × M + (block - S)", of arguments that are accepted and a block that is counted from S.
pub fn data_bin(phase: u64, blocks: u64, block: u64) -> u64 {
    phase.wrapping_mul(blocks).wrapping_add(block)
}
