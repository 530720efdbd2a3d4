// How many words a shape needs, and a fresh run in the work memory lent.
#![tactic(auto)]

ghost use Rattle.std.specs.Prelude.{◌≡◌};
ghost use Rattle.lta_spec.specs.Answer.{numbered_as, started_as};
ghost use Rattle.lta_spec.specs.Step.{size_answer, setup_answer, setup_leaves};

use lta_spec::{Refusal, Shape};
use shape::{host_verdict, memory_words, shape_ok};
use words::clear;

// How many words of work memory a shape needs.
pub fn words_needed(s: Shape) -> Result<u64, Refusal>
    ensures { numbered_as result ≡ size_answer s }
{
    Refusal::BadShape.unless(shape_ok(s))?;
    Ok(memory_words(s) as u64)
}

// A fresh run in the work memory lent: its words are all 0.
pub fn setup(s: Shape, mem: &mut [u64]) -> Result<(), Refusal>
    ensures answer { started_as result ≡ setup_answer s mem.old }
    ensures leaves { mem.new ≡ setup_leaves s mem.old }
{
    let words = mem.len();
    host_verdict(s, words)?;
    clear(mem, 0, words);
    Ok(())
}
