// The calls that are tested, each on as many words and bytes as it lends. Of a call that lends more than the test has,
// there is no answer.
use lta_spec::{Refusal, Shape, Sums};
use test_lib_rules::call::{Answer, Bin, Call, Op};
use test_lib_tools::{bytes, words};

pub fn words_needed(s: Shape) -> Answer {
    lta::words_needed(s)
}

// Setup on the first words.
pub fn setup(s: Shape, mem: &mut [u64], words: u64) -> Option<Answer> {
    let lent = mem.get_mut(..words as usize)?;
    Some(lta::setup(s, lent).map(|()| 0))
}

// A tick, with the bits of the call's validity byte but X's and Y's in the validity byte of its cell.
fn tick(s: Shape, mem: &mut [u64], k: Call, validity: u8, samples: &mut [u8]) -> Answer {
    if let Some(of_cell) = samples.chunks_exact_mut(3).nth(k.cell as usize) {
        of_cell[2] |= validity & 0xfc;
    }
    let lent = bytes::head(samples, k.bytes as usize);
    lta::tick(s, mem, lent)
}

// A dump, an emission, a page or a pick.
fn into(s: Shape, mem: &mut [u64], k: Call, out: &mut [u8]) -> Answer {
    match k.op {
        Op::Dump {
            command,
            bank,
            phase,
        } => { lta::dump(s, mem, k.cell, command, bank, phase, out).map(u64::from) }
        Op::Emit(Bin { bank, bin }) => lta::emit(s, mem, k.cell, bank, bin, out),
        Op::Page => lta::page(s, mem, out),
        _ => lta::pick(s, mem, out),
    }
}

// A call but a reading, with its samples or into its buffer.
pub fn told(s: Shape, mem: &mut [u64], k: Call, buffer: &mut [u8]) -> Option<Answer> {
    let lent = mem.get_mut(..k.words as usize)?;
    Some(match k.op {
        Op::Tick(samples) => tick(s, lent, k, samples.validity, buffer),
        Op::Integrate => lta::integrate(s, lent, k.cell).map(u64::from),
        Op::Forecast => lta::forecast(s, lent, k.cell),
        _ => into(s, lent, k, buffer.get_mut(..k.bytes as usize)?),
    })
}

// A reading of a loss at a lag.
pub fn reading(s: Shape, mem: &[u64], k: Call, lag: u64, loss: u64) -> Result<Sums, Refusal> {
    let lent = words::head(mem, k.words);
    lta::reading(s, lent, k.cell, lag, loss)
}
