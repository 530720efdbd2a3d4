// The shift registers of a cell: they take an entry, and are read decoded, Y the other way round, so that lag 2j
// is X[j] · Y[j] and lag 2j + 1 is X[j + 1] · Y[j].
#![tactic(auto)]

ghost use Rattle.std.specs.Prelude.{◌≡◌, ◌∷◌, ℕ, ◌+◌, ◌-◌, ◌*◌, ◌<◌, ◌≤◌, length, take, slice_index};
ghost use Rattle.lta_spec.specs.Words.{part, splice};
ghost use Rattle.lta_spec.specs.Size.{depth};
ghost use Rattle.lag_registers.specs.Registers.{low_word, word, Decodes, Registers};

use signal::{phase_of, sample_of, valid_of};

// A shift register moves: it takes a new entry, and the oldest falls out. From its end, so that each word is read
// before it is written; `copy_within` would make programs in C need memmove.
pub fn shift(s: &mut [u64], at: usize, depth: usize, entry: u64)
    requires { (at + depth ≤ length s.old) × (1 ≤ depth) }
    ensures { s.new
        ≡ splice s.old at (take depth (entry ∷ part at depth s.old)) }
{
    let register = &mut s[at..at + depth];
    for j in (1..depth).rev() {
        register[j] = register[j - 1];
    }
    register[0] = entry;
}

// Gathers the registers x and y in small words: X newest first, Y oldest first. An entry has nine bits; sixteen are
// taken, since that leaves nothing to mask.
fn gather(x: &[u64], y: &[u64], xs: &mut [u16], ys: &mut [u16])
    requires { (length y.now ≡ length x.now) × (length x.now ≤ length xs.old) × (length x.now ≤ length ys.old) }
    ensures newest_first { (j : ℕ) → j < length x.now → slice_index xs.new j ≡ low_word x.now j }
    ensures oldest_first { (j : ℕ) → j < length x.now → slice_index ys.new j ≡ low_word y.now (length x.now - 1 - j) }
{
    let m = x.len();
    for j in 0..m {
        xs[j] = (x[j] % 65536) as u16;
        ys[j] = (y[m - 1 - j] % 65536) as u16;
    }
}

// Decodes m gathered entries: samples in their places, phases in the m words behind them, and then validity. In the
// loop above, which reads wide words, it would run on two at a time instead of eight.
fn decode(ws: &mut [u16], m: usize)
    requires { 3 * m ≤ length ws.old }
    ensures { Decodes (word ws.old) m m ws.new }
{
    for j in 0..m {
        let w = ws[j];
        ws[j] = sample_of(w);
        ws[m + j] = phase_of(w);
        ws[2 * m + j] = valid_of(w);
    }
}

// Reads the registers of n lags at x and y, each entry decoded once.
pub fn read_registers(s: &[u64], x: usize, y: usize, n: usize, xs: &mut [u16], ys: &mut [u16])
    requires { (x + depth n ≤ length s.now) × (y + depth n ≤ length s.now) × (3 * depth n ≤ length xs.old)
        × (3 * depth n ≤ length ys.old) }
    ensures { Registers s.now x y n xs.new ys.new }
{
    let m = n / 2 + 1;
    gather(&s[x..x + m], &s[y..y + m], xs, ys);
    decode(xs, m);
    decode(ys, m);
}
