// The dump of one cell: its block moves, and Open into Held, to a loss, or into a frame.
#![tactic(auto)]

ghost use Rattle.std.specs.Prelude.{◌≡◌, true, ◌&&◌, ◌<◌, ◌≤◌};
ghost use Rattle.lta_spec.specs.Shape.{shape_ok};
ghost use Rattle.lta_spec.specs.Answer.{moved_as};
ghost use Rattle.lta_spec.specs.Call.{idle, command_ok, dump_fits, phase_ok, bank_ok};
ghost use Rattle.lta_spec.specs.Call.Call.{dump};
ghost use Rattle.lta_spec.specs.Damage.{dump_unit_sound};
ghost use Rattle.lta_spec.specs.Step.{verdict, step};
ghost use Rattle.cell_layout.specs.Views.{unit_in, unit_by, IsCell};
ghost use Rattle.call_dump.specs.Dumping.{dumped_by, Dumped};

use call_run::Run;
use call_speed::speed_dump;
use cell_block::{count_block, counter_ok};
use cell_dump::dump_cell;
use cell_layout::{Cell, CellShape, DISCARD, IDLE, RUN_LIMIT, SPEED};
use cell_tests::dump_sound;
use frame_header::FrameKind;
use lta_spec::{Moved, Refusal, Shape};

// 6: is the command one of 000 to 100, or 111?
fn command_ok(command: u64) -> bool
    ensures { result ≡ command_ok command }
{
    (command <= DISCARD) | (command == IDLE)
}

// 10: is there room for the frame of a speed dump? No other command wants any.
fn room_rule(n: u64, command: u64, room: usize) -> bool
    requires { n ≤ 128 }
    ensures { result ≡ dump_fits n command room }
{
    (command != SPEED) | (FrameKind::Speed.length(n) <= room as u64)
}

// 7: is there such a bank, and the whole phase bin in it?
fn bin_rule(s: Shape, bank: u64, phase: u64) -> bool
    requires { shape_ok s ≡ true }
    ensures { result ≡ bank_ok bank && phase_ok s phase }
{
    if phase > 1000 {
        false
    } else {
        (bank < 2) & ((phase + 1) * s.blocks <= s.bins)
    }
}

// 11: the block counter and the parts that a dump tests.
fn unit_sound(cell: Cell, blocks: u64, t: u64, command: u64) -> bool
    ensures { result
        ≡ dump_unit_sound cell.entry.shape.lags cell.entry.shape.bins blocks t command (unit_in cell.entry) }
{
    let counter = counter_ok(cell, blocks);
    let parts = dump_sound(cell, t, command);
    counter & parts
}

// 1, 2, 5, 6, 7, 11, 10.
fn dump_verdict(
    s: Shape,
    mem: &[u64],
    c: u64,
    command: u64,
    bank: u64,
    phase: u64,
    out: &[u8],
) -> Result<(), Refusal>
    ensures { result ≡ verdict s mem.now (dump c command bank phase out.now) }
{
    let run = Run::of(s, mem)?;
    let part = run.cell(c)?;
    Refusal::BadCommand.unless(command_ok(command))?;
    Refusal::NoBin.unless(bin_rule(run.shape, bank, phase))?;
    let t = run.time();
    Refusal::Damaged.unless((t <= RUN_LIMIT) & unit_sound(part, run.shape.blocks, t, command))?;
    Refusal::ShortBuffer.unless(room_rule(run.shape.lags, command, out.len()))
}

// A dump with a command other than 011 that is not refused: the block moves first, and the label names it.
fn dump_unit(
    cell: &mut [u64],
    shape: CellShape,
    blocks: u64,
    t: u64,
    command: u64,
    bank: u64,
    phase: u64,
) -> Moved
    requires { (IsCell shape cell.old × (command ≤ idle))
        × ((dump_unit_sound shape.lags shape.bins blocks t command (unit_by shape cell.old) ≡ true)
        × ((dumped_by blocks command bank phase (unit_by shape cell.old)).bin < shape.bins)) }
    ensures { Dumped shape.lags shape.bins blocks t command bank phase (unit_by shape cell.old) result
        cell.new }
{
    let offset = count_block(cell, shape, blocks, command);
    let bin = phase * blocks + offset;
    dump_cell(cell, shape, t, command, bank, bin)
}

// A dump of one cell; a speed dump puts its frame into the front of out.
pub fn dump(
    s: Shape,
    mem: &mut [u64],
    cell: u64,
    command: u64,
    bank: u64,
    phase: u64,
    out: &mut [u8],
) -> Result<Moved, Refusal>
    ensures answer { moved_as result
        ≡ (step s (dump cell command bank phase out.old) mem.old).answer }
    ensures frame { out.new
        ≡ (step s (dump cell command bank phase out.old) mem.old).out }
    ensures leaves { mem.new
        ≡ (step s (dump cell command bank phase out.old) mem.old).mem }
{
    dump_verdict(s, mem, cell, command, bank, phase, out)?;
    if command == SPEED {
        speed_dump(s, mem, cell, bank, phase, out);
        return Ok(Moved::Sent(FrameKind::Speed.length(s.lags)));
    }
    let run = Run { shape: s, mem };
    let shape = run.cell_shape();
    let t = run.time();
    let at = run.cell_start(cell);
    let e = at + run.cell_words();
    Ok(dump_unit(&mut mem[at..e], shape, s.blocks, t, command, bank, phase))
}
