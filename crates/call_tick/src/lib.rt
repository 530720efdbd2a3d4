// The tick of every cell.
#![tactic(auto)]

ghost use Rattle.std.specs.Prelude.{◌≡◌, true, ◌*◌, length};
ghost use Rattle.lta_spec.specs.Answer.{numbered_as};
ghost use Rattle.lta_spec.specs.Memory.{run_layout};
ghost use Rattle.lta_spec.specs.Call.Call.{tick};
ghost use Rattle.lta_spec.specs.Step.{units_sound, tick_units, held_off, step};
ghost use Rattle.cell_layout.specs.Lays.{Lays};
ghost use Rattle.call_run.specs.Runs.{Hosted, run_of};
ghost use Rattle.call_tick.specs.Cells.{Ticks, TickedAt};

use call_run::Run;
use call_tick_tests::tick_verdict;
use cell_layout::TIME;
use cell_tick::tick_cell;
use lta_spec::{Refusal, Shape};
use signal::entry_of;

// A tick of cell c that brings the entries x and y; answers 1 where the cell is held off and else 0.
fn tick_at(s: Shape, mem: &mut [u64], c: u64, x: u64, y: u64) -> u64
    requires { Ticks s mem.old c }
    ensures { TickedAt s c x y (run_of s mem.old) result mem.new }
{
    let run = Run { shape: s, mem };
    let shape = run.cell_shape();
    let at = run.cell_start(c);
    let e = at + run.cell_words();
    tick_cell(&mut mem[at..e], shape, x, y)
}

// An X, a Y and a validity byte for each cell in turn, its bit 0 for X and bit 1 for Y; answers how many cells are held
// off.
fn tick_cells(s: Shape, mem: &mut [u64], samples: &[u8]) -> u64
    requires { Hosted s mem.old × (length samples.now ≡ 3 * s.cells)
        × (units_sound s (run_of s mem.old).t (run_of s mem.old).units ≡ true) }
    ensures { (result ≡ held_off s (run_of s mem.old).units)
        × Lays (run_layout s) mem.new
        (record {
          t = (run_of s mem.old).t;
          next = (run_of s mem.old).next;
          units = tick_units s samples.now (run_of s mem.old).units;
        }) }
{
    let mut held: u64 = 0;
    for c in 0..s.cells {
        let i = 3 * c as usize;
        let valid = samples[i + 2];
        let x = entry_of(samples[i], valid % 2);
        let y = entry_of(samples[i + 1], valid / 2 % 2);
        held += tick_at(s, mem, c, x, y);
    }
    held
}

// A tick of every cell.
pub fn tick(s: Shape, mem: &mut [u64], samples: &[u8]) -> Result<u64, Refusal>
    ensures answer { numbered_as result ≡ (step s (tick samples.now) mem.old).answer }
    ensures leaves { mem.new ≡ (step s (tick samples.now) mem.old).mem }
{
    tick_verdict(s, mem, samples)?;
    let held = tick_cells(s, mem, samples);
    mem[TIME] += 1;
    Ok(held)
}
