// The recirculation block counter of one cell: the test of refusal 11 on it, and its step in a dump.
#![tactic(auto)]

ghost use Rattle.std.specs.Prelude.{◌≡◌, true, ◌<◌, ◌≤◌};
ghost use Rattle.lta_spec.specs.Call.{idle};
ghost use Rattle.lta_spec.specs.Engine as E;
ghost use Rattle.lta_spec.specs.Damage.{counter_ok};
ghost use Rattle.cell_layout.specs.Views.{unit_in, IsCell, unit_by};
ghost use Rattle.cell_block.specs.Counting.{counter_of, Counts};

use cell_layout::{
    ADD, BLOCK, Cell, CellShape, DISCARD, IDLE, LAST, LAST_COMMAND, SPEED, place_after,
};

// Is the block one of the run's, and the last command none or one that a dump leaves?
pub fn counter_ok(cell: Cell, blocks: u64) -> bool
    ensures { result ≡ counter_ok blocks (unit_in cell.entry).counter }
{
    let code = cell.words[LAST_COMMAND];
    (cell.words[BLOCK] < blocks) & ((code <= LAST + 1) | (code == DISCARD + 1))
}

// Does this command return to S? The first does, 100, and 010 behind 000 or 001.
fn resets(command: u64, code: u64) -> bool
    ensures { result ≡ E.resets command code }
{
    (code == 0) | ((command == DISCARD) | ((command == LAST) & (code <= ADD + 1)))
}

// The block's offset behind a command other than 111.
fn offset_after(blocks: u64, command: u64, offset: u64, code: u64) -> u64
    requires { offset < blocks }
    ensures { result ≡ E.offset_after blocks command (counter_of offset code) }
{
    if resets(command, code) {
        0
    } else {
        place_after(blocks, offset)
    }
}

// The command that is kept as the last one: 001 for 011.
fn kept_as(command: u64) -> u64
    ensures { result ≡ E.kept_as command }
{
    if command == SPEED { ADD } else { command }
}

// The step in a dump that is not refused; the offset of the dump's block.
pub fn count_block(cell: &mut [u64], shape: CellShape, blocks: u64, command: u64) -> u64
    requires { (IsCell shape cell.old × (command ≤ idle))
        × (counter_ok blocks (unit_by shape cell.old).counter ≡ true) }
    ensures { Counts shape.lags shape.bins blocks command cell.old cell.new result }
{
    let offset = cell[BLOCK];
    if command == IDLE {
        return offset;
    }
    let next = offset_after(blocks, command, offset, cell[LAST_COMMAND]);
    cell[BLOCK] = next;
    cell[LAST_COMMAND] = kept_as(command) + 1;
    next
}
