// A shift register entry stored and decoded, and what one lag adds, in words of 16 bits. Sums and products wrap, a
// number below 0 stands in two's complement, and nothing is asked of the words. What a lag adds carries a bias of PEAK.
#![tactic(auto)]

ghost use Rattle.std.specs.Prelude.{◌≡◌, ◌≤◌};
ghost use Rattle.lta_spec.specs.Row.{entry_word};
ghost use Rattle.signal.specs.Signal.{sample_of, phase_of, valid_of, both_flag, turned};
ghost use Rattle.signal.specs.Signal.{weight_word, contribution};

use lta_spec::PEAK;

// A sample of 0, as a shift register keeps it.
const STORED_ZERO: u16 = 8;

// Half a turn, in the top four bits, as phases are.
const HALF_TURN: u16 = 8 * 4096;

// A sampler byte and its validity bit as a shift register keeps them: sample + 8, 16 × phase, 256 × the bit.
pub fn entry_of(byte: u8, bit: u8) -> u64
    ensures { result ≡ entry_word byte bit }
{
    let byte = u64::from(byte);
    (byte % 16 + u64::from(STORED_ZERO)) % 16 + 16 * (byte / 16 % 16) + 256 * u64::from(bit)
}

// 1 where a stored entry is valid, else 0.
pub fn valid_of(w: u16) -> u16
    ensures { result ≡ valid_of w }
{
    w / 256 % 2
}

// The sample of a stored entry, 0 where it is invalid.
pub fn sample_of(w: u16) -> u16
    ensures { result ≡ sample_of w }
{
    if valid_of(w) == 0 {
        0
    } else {
        (w % 16).wrapping_sub(STORED_ZERO)
    }
}

// The phase of a stored entry, in the top four bits.
pub fn phase_of(w: u16) -> u16
    ensures { result ≡ phase_of w }
{
    w / 16 % 16 * 4096
}

// 1 where both of two decoded entries are valid, else 0, by their validity.
pub fn both_valid(u: u16, v: u16) -> u64
    ensures { (result ≡ both_flag u v) × (result ≤ 1) }
{
    u64::from(u != 0 && v != 0)
}

// The weight at the difference of two phases turned by `turn`. Arithmetic on the distance from 0 and no table: it runs
// on several lags at a time. At f steps of phase it has fallen by (9 f + 4) / 16: a step is 4096 here, and 9 × 1820 is
// just below 4 × 4096.
fn weight(p: u16, q: u16, turn: u16) -> u16
    ensures { result ≡ weight_word (turned p q turn) }
{
    let difference = p.wrapping_sub(q).wrapping_add(turn);
    let distance = if difference < HALF_TURN {
        difference
    } else {
        difference.wrapping_neg()
    };
    let fall = u32::from(distance + 1820) * 9 / 65536;
    2u16.wrapping_sub(fall as u16)
}

// What a lag adds to its I sum, or to its Q sum with `turn` three quarters: X's sample a and phase p, Y's b and q.
pub fn lag_adds(a: u16, p: u16, b: u16, q: u16, turn: u16) -> u16
    ensures { result ≡ contribution a p b q turn }
{
    a.wrapping_mul(b)
        .wrapping_mul(weight(p, q, turn))
        .wrapping_add(PEAK as u16)
}
