// Where the words of a run stand in work memory, and the fields of a cell in its words. specs/ has the definitions;
// proofs/ the laws by which a store in the words is a change of the field.
#![tactic(auto)]

ghost use Rattle.std.specs.Prelude.{◌≡◌, ◌<◌};
ghost use Rattle.lta_spec.specs.Engine.{after};

mod cell;
mod shape;

pub use cell::Cell;
pub use shape::CellShape;

// In work memory: t; then the cells; in its last word the cell at which the next pick starts.
pub const TIME: usize = 0;

pub const CELLS: usize = 1;

// Held's flag and label.
pub const OCCUPIED: usize = 0;

pub const COMMAND: usize = 1;

pub const BANK: usize = 2;

pub const DATA_BIN: usize = 3;

// The stamps of Open and of Held.
pub const OPEN_STAMP: usize = 4;

pub const HELD_STAMP: usize = 5;

// The block counter: the current block as its offset from S; the last command plus 1, 0 for none.
pub const BLOCK: usize = 6;

pub const LAST_COMMAND: usize = 7;

// The picks: how many bins are Ready; the place in the list of bins at which the next pick starts.
pub const READY_BINS: usize = 8;

pub const NEXT_BIN: usize = 9;

// Open's row.
pub const OPEN_ROW: usize = 10;

// In a bin, whose first word is its state: its stamp, its row.
pub const STAMP: usize = 1;

pub const ROW: usize = 2;

// In a row: ticks, edge count, centre count, and I and Q of the lags in turn.
pub const TICKS: usize = 0;

pub const EDGE: usize = 1;

pub const CENTRE: usize = 2;

pub const SUMS: usize = 3;

// Ticks of a loss and of a run, of Open and of Held, and of a bin.
pub const RUN_LIMIT: u64 = 2147483648;

pub const OPEN_LIMIT: u64 = 524288;

pub const BIN_LIMIT: u64 = 16777215;

// The losses, from 0: loss number less 1.
pub const ORDERED: usize = 0;

pub const OVERRUN: usize = 1;

pub const FULL: usize = 2;

pub const REPLACED: usize = 3;

pub const WIDE: usize = 4;

pub const HOLDOFF: usize = 5;

pub const LOSSES: usize = 6;

// Dump commands: 000, 001, 010, 011, 100 and 111.
pub const SAVE: u64 = 0;

pub const ADD: u64 = 1;

pub const LAST: u64 = 2;

pub const SPEED: u64 = 3;

pub const DISCARD: u64 = 4;

pub const IDLE: u64 = 7;

// The states of a bin.
pub const FREE: u64 = 0;

pub const FILLING: u64 = 1;

pub const READY: u64 = 2;

// The place behind place k of so many, and behind the last one the first.
pub fn place_after(size: u64, k: u64) -> u64
    requires { k < size }
    ensures { result ≡ after size k }
{
    if k + 1 < size { k + 1 } else { 0 }
}
