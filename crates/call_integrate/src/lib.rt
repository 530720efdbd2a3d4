// The integration of one cell: Held into its bin, or to a loss.
#![tactic(auto)]

ghost use Rattle.std.specs.Prelude.{◌≡◌};
ghost use Rattle.lta_spec.specs.Answer.{moved_as};
ghost use Rattle.lta_spec.specs.Call.Call.{integrate};
ghost use Rattle.lta_spec.specs.Step.{step};

use call_run::Run;
use cell_integrate::{integrate_unit, integrate_unit_sound};
use cell_layout::{OCCUPIED, RUN_LIMIT};
use lta_spec::{Moved, Refusal, Shape};

// An integration of one cell. 1, 2, 5, 11, 8.
pub fn integrate(s: Shape, mem: &mut [u64], cell: u64) -> Result<Moved, Refusal>
    ensures answer { moved_as result ≡ (step s (integrate cell) mem.old).answer }
    ensures leaves { mem.new ≡ (step s (integrate cell) mem.old).mem }
{
    let run = Run::of(s, mem)?;
    let part = run.cell(cell)?;
    let t = run.time();
    Refusal::Damaged.unless((t <= RUN_LIMIT) & integrate_unit_sound(part, t))?;
    Refusal::NothingHeld.unless(part.words[OCCUPIED] == 1)?;
    let shape = run.cell_shape();
    let at = run.cell_start(cell);
    let e = at + run.cell_words();
    Ok(integrate_unit(&mut mem[at..e], shape))
}
