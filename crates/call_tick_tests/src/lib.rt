// The tests of a tick.
#![tactic(auto)]

ghost use Rattle.std.specs.Prelude.{◌≡◌, ◌*◌, ◌≤◌, length};
ghost use Rattle.lta_spec.specs.Call.{validity_ok};
ghost use Rattle.lta_spec.specs.Call.Call.{tick};
ghost use Rattle.lta_spec.specs.Step.{units_sound, verdict};
ghost use Rattle.call_run.specs.Runs.{run_of};

use call_run::Run;
use cell_layout::RUN_LIMIT;
use cell_tests::tick_sound;
use lta_spec::{Refusal, Shape};

// Does a tick find every cell as the engine leaves it?
fn units_sound(run: Run, t: u64) -> bool
    ensures { result
        ≡ units_sound run.entry.shape t (run_of run.entry.shape run.entry.mem.now).units }
{
    let mut ok = true;
    for c in 0..run.shape.cells {
        let sound = tick_sound(run.cell_at(c), t);
        ok = ok & sound;
    }
    ok
}

// Has no validity byte, the last of a cell's three, a bit set but bits 0 and 1?
fn validity_ok(samples: &[u8], cells: u64) -> bool
    requires { (length samples.now ≡ 3 * cells) × (cells ≤ 16) }
    ensures { result ≡ validity_ok cells samples.now }
{
    let mut ok = true;
    for c in 0..cells {
        let valid = samples[3 * c as usize + 2];
        ok = ok & (valid <= 3);
    }
    ok
}

// 1, 2, 3, 19, 4, 11.
pub fn tick_verdict(s: Shape, mem: &[u64], samples: &[u8]) -> Result<(), Refusal>
    ensures { result ≡ verdict s mem.now (tick samples.now) }
{
    let run = Run::of(s, mem)?;
    let cells = run.shape.cells;
    Refusal::WrongSamples.unless(samples.len() as u64 == 3 * cells)?;
    Refusal::BadValidity.unless(validity_ok(samples, cells))?;
    let t = run.time();
    Refusal::RunFull.unless(t != RUN_LIMIT)?;
    Refusal::Damaged.unless((t <= RUN_LIMIT) & units_sound(run, t))
}
