// One call on memory that the test has set: its answer, what it wrote, and every word afterwards are held to what the
// papers say of those words. Rows of such calls make up groups, whose lines a program prints.
#![tactic(auto)]

use lta_spec::{Shape, Sums};
use std::io;
use test_lib_after::after::is_right;
use test_lib_after::frames::is_frame;
use test_lib_after::pages::is_page;
use test_lib_calls::ask;
use test_lib_memory::base::Memory;
use test_lib_memory::cells::Run;
use test_lib_memory::due::says;
use test_lib_memory::map::Set;
use test_lib_rules::call::{Answer, Call, LOSSES, Op};
use test_lib_rules::history::Samples;
use test_lib_tools::bytes::{PEAK, fill_pattern, is_kept};
use test_lib_tools::report::{Tally, line};

// Samples of three cells that get the same bytes, with the two low bits of the validity byte.
fn samples_of(Samples { x, y, validity }: Samples) -> [u8; 9] {
    let v = validity % 4;
    [x, y, v, x, y, v, x, y, v]
}

// The numbers of a loss at a lag.
fn sums(old: &Run<'_>, cell: u64, lag: u64, loss: u64) -> Option<Sums> {
    let &loss = LOSSES.get(loss.checked_sub(1)? as usize)?;
    let row = old.cell(cell).row(Set::Lost(loss));
    let bias = row.ticks().wrapping_mul(PEAK);
    let at = lag.saturating_mul(2);
    Some(Sums {
        i: row.sum(at).wrapping_sub(bias).cast_signed(),
        q: row
            .sum(at.saturating_add(1))
            .wrapping_sub(bias)
            .cast_signed(),
        ticks: row.ticks(),
        edge: row.edge(),
        centre: row.centre(),
    })
}

// A call on words of work memory, and what it is to answer; of one that is accepted, the words as a run.
#[derive(Clone, Copy)]
struct Trial<'a> {
    shape: Shape,
    old: &'a [u64],
    call: Call,
    due: Answer,
    run: Option<Run<'a>>,
}

impl Trial<'_> {
    // Does the call answer what is due? A reading that is accepted answers with its numbers.
    fn answers(&self, mem: &mut [u64], out: &mut [u8]) -> bool {
        let k = self.call;
        match (k.op, &self.run) {
            (Op::Reading { lag, loss }, Some(run)) => {
                ask::reading(self.shape, mem, k, lag, loss).ok() == sums(run, k.cell, lag, loss)
            }
            (Op::Reading { lag, loss }, None) => {
                ask::reading(self.shape, mem, k, lag, loss).err() == self.due.err()
            }
            (Op::Tick(samples), _) => {
                ask::told(self.shape, mem, k, &mut samples_of(samples)) == Some(self.due)
            }
            _ => ask::told(self.shape, mem, k, out) == Some(self.due),
        }
    }

    // Is the buffer the frame or the page that the call writes; or, where it writes none, is no byte written?
    fn writes(&self, out: &[u8]) -> bool {
        match (&self.run, self.call.op, self.call.op.frame()) {
            (Some(run), Op::Page, _) => is_page(run, out),
            (Some(run), _, Some(kind)) => is_frame(run, self.call, kind, out),
            _ => is_kept(out, 0),
        }
    }

    // Are the words as they are due: as they were where the call is refused?
    fn leaves(&self, mem: &[u64]) -> bool {
        match &self.run {
            Some(run) => is_right(&Run { words: mem, ..*run }, run, self.call),
            None => mem == self.old,
        }
    }

    // All three, with such a buffer.
    fn agrees_in(&self, mem: &mut [u64], out: &mut [u8]) -> bool {
        fill_pattern(out);
        self.answers(mem, out) && self.writes(out) && self.leaves(mem)
    }

    // With as many bytes as such a call may be lent.
    fn agrees(&self, mem: &mut [u64]) -> bool {
        match self.call.op {
            Op::Dump { .. } | Op::Emit(_) | Op::Page | Op::Pick(_) => {
                self.agrees_in(mem, &mut [0; 1300])
            }
            _ => self.agrees_in(mem, &mut []),
        }
    }
}

// The call on `mem`, whose words are those of `old`, answers `due`, which is also what the model says, and leaves what
// is due. A pick that is accepted gets the bin that it takes.
pub fn agrees(shape: Shape, mem: &mut [u64], old: &[u64], call: Call, due: Answer) -> bool {
    let run = Run::of(shape, old).filter(|_| due.is_ok());
    let call = run.map_or(call, |run| run.taken(call));
    let trial = Trial {
        shape,
        old,
        call,
        due,
        run,
    };
    trial.agrees(mem) && says(shape, old, call) == due
}

// A row: the call on these words answers `due`.
pub fn held_to(t: &mut Tally, s: Shape, old: &Memory, k: Call, due: Answer) {
    let mut mem = *old;
    let agrees = agrees(s, &mut mem, old, k, due);
    t.row(agrees, due.is_err());
}

// A row in which the model alone says what is due.
pub fn modelled(t: &mut Tally, s: Shape, old: &Memory, k: Call) {
    held_to(t, s, old, k, says(s, old, k));
}

// The lines of some groups, and their rows together; an error where a line cannot be written, which ends them.
pub fn lines(rt: &impl Print, n: u64, groups: &[(&str, Tally)]) -> io::Result<Tally> {
    let mut total = Tally::default();
    for (name, tally) in groups {
        line(rt, n, name, tally)?;
        total.include(tally);
    }
    Ok(total)
}
