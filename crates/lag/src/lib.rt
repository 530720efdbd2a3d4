// What one tick adds to a row: its counts, and the terms of its lags.
#![tactic(auto)]

ghost use Rattle.std.specs.Prelude.{◌≡◌, map, ℕ, ◌+◌, ◌*◌, ◌/◌, ◌<◌, ◌≤◌, ◌^◌, length, get_or, slice_index};
ghost use Rattle.lta_spec.specs.Words.{part, splice, sums};
ghost use Rattle.lta_spec.specs.Size.{depth, row_words};
ghost use Rattle.lta_spec.specs.Row.{from_word, tick_row};
ghost use Rattle.lag_terms.specs.Terms.{lag_terms};
ghost use Rattle.lag.specs.Lag.{Ready, ticked};

use lag_counts::count_tick;
use lag_registers::read_registers;
use lag_terms::put_lags;

// Adds to each word of a row its term.
fn add_terms(row: &mut [u64], terms: &[u16])
    requires { (length row.old ≤ length terms.now)
        × ((i : ℕ) → i < length row.old → slice_index row.old i + slice_index terms.now i < 2 ^ 64) }
    ensures { (i : ℕ) → i < length row.old → slice_index row.new i ≡ slice_index row.old i + slice_index terms.now i }
{
    for i in 0..row.len() {
        row[i] += u64::from(terms[i]);
    }
}

// Adds the terms of 2h lags to the sums of the row at `to`.
fn add_lags(s: &mut [u64], xs: &[u16], ys: &[u16], h: usize, to: usize, terms: &mut [u16])
    requires { (h ≤ 64) × (2 * (h + 1) ≤ length xs.now) × (2 * (h + 1) ≤ length ys.now)
        × (4 * h ≤ length terms.old) × (to + 3 + 4 * h ≤ length s.old)
        × ((i : ℕ) → i < 4 * h
        → get_or s.old (to + 3 + i) 0 + get_or (lag_terms xs.now ys.now (h + 1) h) i 0 < 2 ^ 64) }
    ensures { s.new
        ≡ splice s.old (to + 3)
        (sums (part (to + 3) (4 * h) s.old) (lag_terms xs.now ys.now (h + 1) h)) }
{
    put_lags(xs, ys, h, terms);
    add_terms(&mut s[to + 3..to + 3 + 4 * h], terms);
}

// `add_tick` with arrays of so many small words: for each register, decoded, and for what the lags add.
fn add_tick_with<const DECODED: usize, const TERMS: usize>(
    s: &mut [u64],
    x: usize,
    y: usize,
    to: usize,
    n: usize,
)
    requires ready { Ready s.old x y to n }
    requires enough { (3 * depth n ≤ DECODED) × (2 * n ≤ TERMS) }
    requires small { (DECODED ≤ 195) × (TERMS ≤ 256) }
    ensures { s.new ≡ ticked s.old x y to n }
{
    let mut xs = [0; DECODED];
    let mut ys = [0; DECODED];
    let mut terms = [0; TERMS];
    read_registers(s, x, y, n, &mut xs, &mut ys);
    count_tick(s, &xs, &ys, to, n);
    add_lags(s, &xs, &ys, n / 2, to, &mut terms);
}

// Adds to the row at `to` what the tick whose registers stand at x and y adds: ticks, counts, and I and Q of n lags.
// For few lags there is less to clear: with arrays for 128 lags a tick of 2 lags would take a quarter longer.
pub fn add_tick(s: &mut [u64], x: usize, y: usize, to: usize, n: usize)
    requires { Ready s.old x y to n }
    ensures { s.new
        ≡ splice s.old to
        (sums (part to (row_words n) s.old)
        (tick_row n (map from_word (part x (depth n) s.old))
        (map from_word (part y (depth n) s.old)))) }
{
    if n <= 16 {
        add_tick_with::<27, 32>(s, x, y, to, n);
    } else if n <= 32 {
        add_tick_with::<51, 64>(s, x, y, to, n);
    } else {
        add_tick_with::<195, 256>(s, x, y, to, n);
    }
}
