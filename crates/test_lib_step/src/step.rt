// One call of a list, and the work memory behind it.
use crate::record::Record;
use lta_spec::{Refusal, Shape, Sums};
use test_lib_calls::ask;
use test_lib_machine::machine::Machine;
use test_lib_machine::sets::{Place, Set};
use test_lib_numbers::{frames, memory, pages};
use test_lib_rules::call::{Answer, Call, LOSSES, Op, needed, tested};
use test_lib_rules::history::Quantity;
use test_lib_tools::bytes::{fill_pattern, is_kept};
use test_lib_tools::words::{digest, head};

// The bytes of tick t: "three bytes for each cell: X, Y, and a validity byte".
fn fill(m: &Machine, bytes: &mut [u8]) {
    for (c, of_cell) in bytes.chunks_exact_mut(3).enumerate() {
        let samples = m.sampler(c).samples(m.time());
        of_cell.copy_from_slice(&[samples.x, samples.y, samples.validity]);
    }
}

// A call that writes into no buffer answers what is due.
fn moves(mem: &mut [u64], m: &Machine, s: Shape, k: Call, due: Answer) -> bool {
    let mut samples = [0; 51];
    fill(m, &mut samples);
    ask::told(s, mem, k, &mut samples) == Some(due)
}

// Is the frame or the page right; or, where the call is refused or is a dump that writes no frame, is no byte of the
// buffer written?
fn is_written(m: &Machine, k: Call, out: &[u8], due: Answer) -> bool {
    match (k.op, k.op.frame()) {
        _ if due.is_err() => is_kept(out, 0),
        (Op::Page, _) => pages::is_due(m, out),
        (_, Some(_)) => frames::is_due(m, k, out),
        _ => is_kept(out, 0),
    }
}

// A dump, an emission or a pick with its frame, or a page with its lines.
fn writes(mem: &mut [u64], m: &Machine, s: Shape, k: Call, due: Answer) -> bool {
    let mut out = [0; 4200];
    fill_pattern(&mut out);
    ask::told(s, mem, k, &mut out) == Some(due) && is_written(m, k, &out, due)
}

// The numbers of a reading: those of the loss's set at a lag.
fn sums(m: &Machine, c: u64, lag: u64, loss: u64) -> Option<Sums> {
    let cell = m.cell(c)?;
    let loss = LOSSES.get(loss.checked_sub(1)? as usize)?;
    let set = Set::Of(Place::Lost(*loss));
    let [ticks, edge, centre] = cell.counts(set);
    Some(Sums {
        i: cell.sum(set, lag, Quantity::InPhase).cast_signed(),
        q: cell.sum(set, lag, Quantity::Quadrature).cast_signed(),
        ticks,
        edge,
        centre,
    })
}

// Does the call answer what is due?
fn answers(mem: &mut [u64], m: &Machine, s: Shape, k: Call, due: Answer) -> bool {
    match k.op {
        Op::Dump { .. } | Op::Emit(_) | Op::Page | Op::Pick(_) => writes(mem, m, s, k, due),
        Op::Reading { lag, loss } => {
            let due = due.and_then(|_| sums(m, k.cell, lag, loss).ok_or(Refusal::NoLag));
            ask::reading(s, mem, k, lag, loss) == due
        }
        _ => moves(mem, m, s, k, due),
    }
}

// Does it, and does it leave memory as it is where it is refused, or is a page?
fn agrees(mem: &mut [u64], m: &Machine, s: Shape, k: Call, due: Answer) -> bool {
    if due.is_err() || k.op == Op::Page {
        let before = digest(mem);
        answers(mem, m, s, k, due) && digest(mem) == before
    } else {
        answers(mem, m, s, k, due)
    }
}

// The first refusal that applies, or the answer.
fn due(m: &Machine, s: Shape, k: Call) -> Answer {
    tested(s, k)?;
    m.says(k)
}

// A call; behind it no Ready bin has waited too long.
pub fn step(mem: &mut [u64], m: &mut Machine, record: &mut Record, s: Shape, call: Call) {
    let k = m.taken(call);
    let due = due(m, s, k);
    let told = agrees(mem, m, s, k, due);
    if due.is_ok() {
        m.apply(k);
    }
    record.row(k.op.into(), told && m.is_fair(), due.is_err());
}

// Every word of memory is compared.
pub fn compare(mem: &[u64], m: &Machine, record: &mut Record) {
    let words = needed(m.shape());
    record.memory(memory::is_due(m, head(mem, words)), words);
}
