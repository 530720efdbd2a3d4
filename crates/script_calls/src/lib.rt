// The call that each record of a script makes, on a run of one cell.
#![tactic(auto)]

ghost use Rattle.std.specs.Prelude.{◌≡◌};
ghost use Rattle.lta_spec.specs.Answer.{numbered_as};
ghost use Rattle.lta_spec.specs.Edges.{script_shape};
ghost use Rattle.script_calls.specs.Calls.{step_of, buffer_after};

use lta_spec::{Refusal, Shape};
use script_records::Record;

// C = 1, N = 2, B = 2, M = 1, S = 0, R = 4, Z = 0.
const SHAPE: Shape = Shape {
    cells: 1,
    lags: 2,
    bins: 2,
    blocks: 1,
    start: 0,
    rate: 4,
    second: 0,
};

pub fn shape() -> Shape
    ensures { result ≡ script_shape }
{
    SHAPE
}

// The call of a record. The frame of an emission or of a speed dump goes into the buffer lent.
pub fn call(mem: &mut [u64], r: Record, out: &mut [u8]) -> Result<u64, Refusal>
    ensures answer { numbered_as result ≡ (step_of r out.old mem.old).answer }
    ensures frame { out.new ≡ buffer_after r out.old mem.old }
    ensures leaves { mem.new ≡ (step_of r out.old mem.old).mem }
{
    match r {
        Record::Tick(t) => lta::tick(SHAPE, mem, &[t.x, t.y, t.valid]),
        Record::Dump(d) => lta::dump(SHAPE, mem, d.cell, d.command, d.bank, d.phase, out).map(
            u64::from,
        ),
        Record::Integrate(cell) => lta::integrate(SHAPE, mem, cell).map(u64::from),
        Record::Emit(e) => lta::emit(SHAPE, mem, e.cell, e.bank, e.bin, out),
    }
}
