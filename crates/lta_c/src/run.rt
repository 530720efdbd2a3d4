// The calls on a run. Each contract is that of the call of crate lta that it makes, its answer packed.
ghost use Rattle.std.specs.Prelude.{◌≡◌};
ghost use Rattle.lta_spec.specs.Call.Call.{tick, dump, integrate, emit, pick, forecast, page};
ghost use Rattle.lta_spec.specs.Step.{size_answer, setup_answer, setup_leaves, step};
ghost use Rattle.host_pack.specs.Boundary.{shape_of, packed, stored, sums_in, counts_in};
ghost use Rattle.lta_c.specs.Answers.{reading_told};

use host_pack::numbers::shape_of;
use host_pack::pack::pack;
use host_values::store_sums;

// How many words of work memory a shape needs.
#[unsafe(no_mangle)]
pub extern "C" fn lta_words_needed(shape: &[u64]) -> u64
    ensures { result ≡ packed (size_answer (shape_of shape.now)) }
{
    pack(lta::words_needed(shape_of(shape)))
}

// A fresh run in the work memory lent.
#[unsafe(no_mangle)]
pub extern "C" fn lta_setup(shape: &[u64], mem: &mut [u64]) -> u64
    ensures answer { result ≡ packed (setup_answer (shape_of shape.now) mem.old) }
    ensures leaves { mem.new ≡ setup_leaves (shape_of shape.now) mem.old }
{
    pack(lta::setup(shape_of(shape), mem).map(|()| 0))
}

// A tick of every cell.
#[unsafe(no_mangle)]
pub extern "C" fn lta_tick(shape: &[u64], mem: &mut [u64], samples: &[u8]) -> u64
    ensures answer { result
        ≡ packed (step (shape_of shape.now) (tick samples.now) mem.old).answer }
    ensures leaves { mem.new
        ≡ (step (shape_of shape.now) (tick samples.now) mem.old).mem }
{
    pack(lta::tick(shape_of(shape), mem, samples))
}

// A dump of one cell; a speed dump puts its frame into the front of out.
#[unsafe(no_mangle)]
pub extern "C" fn lta_dump(
    shape: &[u64],
    mem: &mut [u64],
    cell: u64,
    command: u64,
    bank: u64,
    phase: u64,
    out: &mut [u8],
) -> u64
    ensures answer { result
        ≡ packed (step (shape_of shape.now) (dump cell command bank phase out.old)
        mem.old).answer }
    ensures frame { out.new
        ≡ (step (shape_of shape.now) (dump cell command bank phase out.old) mem.old).out }
    ensures leaves { mem.new
        ≡ (step (shape_of shape.now) (dump cell command bank phase out.old) mem.old).mem }
{
    pack(lta::dump(shape_of(shape), mem, cell, command, bank, phase, out).map(u64::from))
}

// An integration of one cell.
#[unsafe(no_mangle)]
pub extern "C" fn lta_integrate(shape: &[u64], mem: &mut [u64], cell: u64) -> u64
    ensures answer { result
        ≡ packed (step (shape_of shape.now) (integrate cell) mem.old).answer }
    ensures leaves { mem.new
        ≡ (step (shape_of shape.now) (integrate cell) mem.old).mem }
{
    pack(lta::integrate(shape_of(shape), mem, cell).map(u64::from))
}

// An emission: the frame of a Ready bin into the front of out.
#[unsafe(no_mangle)]
pub extern "C" fn lta_emit(
    shape: &[u64],
    mem: &mut [u64],
    cell: u64,
    bank: u64,
    bin: u64,
    out: &mut [u8],
) -> u64
    ensures answer { result
        ≡ packed (step (shape_of shape.now) (emit cell bank bin out.old) mem.old).answer }
    ensures frame { out.new
        ≡ (step (shape_of shape.now) (emit cell bank bin out.old) mem.old).out }
    ensures leaves { mem.new
        ≡ (step (shape_of shape.now) (emit cell bank bin out.old) mem.old).mem }
{
    pack(lta::emit(shape_of(shape), mem, cell, bank, bin, out))
}

// A pick: the frame of the Ready bin whose turn it is into the front of out.
#[unsafe(no_mangle)]
pub extern "C" fn lta_pick(shape: &[u64], mem: &mut [u64], out: &mut [u8]) -> u64
    ensures answer { result
        ≡ packed (step (shape_of shape.now) (pick out.old) mem.old).answer }
    ensures frame { out.new
        ≡ (step (shape_of shape.now) (pick out.old) mem.old).out }
    ensures leaves { mem.new
        ≡ (step (shape_of shape.now) (pick out.old) mem.old).mem }
{
    pack(lta::pick(shape_of(shape), mem, out))
}

// The numbers of one loss of one cell at one lag.
#[unsafe(no_mangle)]
pub extern "C" fn lta_reading(
    shape: &[u64],
    mem: &[u64],
    cell: u64,
    lag: u64,
    loss: u64,
    sums: &mut [i64],
    counts: &mut [u64],
) -> u64
    ensures answer { result
        ≡ packed (reading_told shape.now mem.now cell lag loss sums.old
        counts.old) }
    ensures sums { sums.new
        ≡ stored sums.old 0
        (sums_in
        (reading_told shape.now mem.now cell lag loss sums.old
        counts.old)) }
    ensures counts { counts.new
        ≡ stored counts.old 0
        (counts_in
        (reading_told shape.now mem.now cell lag loss sums.old
        counts.old)) }
{
    store_sums(
        lta::reading(shape_of(shape), mem, cell, lag, loss),
        sums,
        counts,
    )
}

// The ticks that a cell may still take before it is held off.
#[unsafe(no_mangle)]
pub extern "C" fn lta_forecast(shape: &[u64], mem: &[u64], cell: u64) -> u64
    ensures { result
        ≡ packed (step (shape_of shape.now) (forecast cell) mem.now).answer }
{
    pack(lta::forecast(shape_of(shape), mem, cell))
}

// A loss page into the front of out.
#[unsafe(no_mangle)]
pub extern "C" fn lta_page(shape: &[u64], mem: &[u64], out: &mut [u8]) -> u64
    ensures answer { result
        ≡ packed (step (shape_of shape.now) (page out.old) mem.now).answer }
    ensures page { out.new
        ≡ (step (shape_of shape.now) (page out.old) mem.now).out }
{
    pack(lta::page(shape_of(shape), mem, out))
}
