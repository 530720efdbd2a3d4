// Words of a lent slice: a row is added to another and cleared, a part is cleared, and the tests of refusal 11 on rows
// and on shift registers.
#![tactic(auto)]

ghost use Rattle.std.specs.Prelude.{◌≡◌, ◌+◌, ◌*◌, ◌<◌, ◌≤◌, true, length};
ghost use Rattle.lta_spec.specs.Words.{part, splice, zeros, every};
ghost use Rattle.lta_spec.specs.Shape.{run_limit};
ghost use Rattle.lta_spec.specs.Size.{row_words};
ghost use Rattle.lta_spec.specs.Row.{row_ok, entry_ok};
ghost use Rattle.words.specs.Moves.{Folds, folded, at_most};

use lta_spec::PEAK;

const TOP_BIT: u64 = 1 << 63;

// A move of one place to another: adds the n words at `from` to those at `to`, and clears the first.
pub fn fold(s: &mut [u64], from: usize, to: usize, n: usize)
    requires { Folds s.old from to n }
    ensures { s.new ≡ folded s.old from to n }
{
    for i in 0..n {
        s[to + i] += s[from + i];
        s[from + i] = 0;
    }
}

// Clears the n words at `at`.
pub fn clear(s: &mut [u64], at: usize, n: usize)
    requires { at + n ≤ length s.old }
    ensures { s.new ≡ splice s.old at (zeros n) }
{
    s[at..at + n].fill(0);
}

// Is each of the n words at `at` at most b? No branch in the loop and no unsigned comparison, which SSE2 lacks: where
// neither the word nor b less the word, wrapping, has its top bit, the word is at most b.
fn all_le(s: &[u64], at: usize, n: usize, b: u64) -> bool
    requires { (at + n ≤ length s.now) × (b < TOP_BIT) }
    ensures { result ≡ every (at_most b) (part at n s.now) }
{
    let mut bits = 0;
    for i in 0..n {
        let word = s[at + i];
        bits |= word | b.wrapping_sub(word);
    }
    bits < TOP_BIT
}

// The bits of the n words at `at`, gathered: none of the words is above them.
fn bits_of(s: &[u64], at: usize, n: usize) -> u64
    requires { at + n ≤ length s.now }
    ensures { every (at_most result) (part at n s.now) ≡ true }
{
    let mut bits = 0;
    for i in 0..n {
        bits |= s[at + i];
    }
    bits
}

// Is each of the n words at `at` at most b? Their bits gathered are half the work and mostly tell: the sums of a row
// are near half of what they may be, and entries are below a power of 2. Where they do not, each word is tested. By
// their places, since over a slice of them the test of a row of two lags takes a seventh longer.
fn within(s: &[u64], at: usize, n: usize, b: u64) -> bool
    requires { (at + n ≤ length s.now) × (b < TOP_BIT) }
    ensures { result ≡ every (at_most b) (part at n s.now) }
{
    bits_of(s, at, n) <= b || all_le(s, at, n, b)
}

// Is the row of n lags at `at` within its limits: ticks, counts, and stored sums of at most twice the peak a tick?
pub fn row_ok(s: &[u64], at: usize, n: usize, limit: u64) -> bool
    requires { (at + row_words n ≤ length s.now) × (limit ≤ run_limit) × (n ≤ 128) }
    ensures { result ≡ row_ok limit (part at (row_words n) s.now) }
{
    let ticks = s[at];
    let few = (s[at + 1] <= ticks) & (s[at + 2] <= ticks);
    ticks <= limit && few & within(s, at + 3, 2 * n, 2 * PEAK as u64 * ticks)
}

// Is each of the n words at `at` an entry that a sampler byte and its validity bit give?
pub fn entries_ok(s: &[u64], at: usize, n: usize) -> bool
    requires { at + n ≤ length s.now }
    ensures { result ≡ every entry_ok (part at n s.now) }
{
    within(s, at, n, 511)
}
