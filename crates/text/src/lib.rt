// Text in a lent buffer: bytes, decimal numbers, and numbers right-aligned in columns.
#![tactic(auto)]

ghost use Rattle.std.specs.Prelude.{◌≡◌, [], ◌∷◌, ◌+◌, ◌≤◌, ◌<◌, length};
ghost use Rattle.lta_spec.specs.Words.{splice};
ghost use Rattle.lta_spec.specs.Decimal.{decimal, right_aligned};

// The digits of n, the last of them just before `end`; answers where they start.
fn put_digits(out: &mut [u8], end: usize, n: u64) -> usize
    requires { (length (decimal n) ≤ end) × (end ≤ length out.old) }
    ensures starts { result + length (decimal n) ≡ end }
    ensures leaves { out.new ≡ splice out.old result (decimal n) }
{
    let mut at = end;
    let mut rest = n;
    while rest >= 10 {
        at -= 1;
        out[at] = b'0' + (rest % 10) as u8;
        rest /= 10;
    }
    at -= 1;
    out[at] = b'0' + rest as u8;
    at
}

// How many digits n has.
fn digits(n: u64) -> usize
    ensures { result ≡ length (decimal n) }
{
    if n < 10 { 1 } else { digits(n / 10) + 1 }
}

// One byte at `at`; answers the place behind it.
pub fn put_byte(out: &mut [u8], at: usize, b: u8) -> usize
    requires { at < length out.old }
    ensures behind { result ≡ at + 1 }
    ensures leaves { out.new ≡ splice out.old at (b ∷ []) }
{
    out[at] = b;
    at + 1
}

// Bytes from `at` on; answers the place behind them.
pub fn put_bytes(out: &mut [u8], at: usize, bytes: &[u8]) -> usize
    requires { at + length bytes.now ≤ length out.old }
    ensures behind { result ≡ at + length bytes.now }
    ensures leaves { out.new ≡ splice out.old at bytes.now }
{
    let end = at + bytes.len();
    out[at..end].copy_from_slice(bytes);
    end
}

// A number in decimal from `at` on; answers the place behind it.
pub fn put_number(out: &mut [u8], at: usize, n: u64) -> usize
    requires { at + length (decimal n) ≤ length out.old }
    ensures behind { result ≡ at + length (decimal n) }
    ensures leaves { out.new ≡ splice out.old at (decimal n) }
{
    let end = at + digits(n);
    put_digits(out, end, n);
    end
}

// A number right-aligned in w columns from `at` on; answers the place behind them.
pub fn put_right(out: &mut [u8], at: usize, w: usize, n: u64) -> usize
    requires { (length (decimal n) ≤ w) × (at + w ≤ length out.old) }
    ensures behind { result ≡ at + w }
    ensures leaves { out.new ≡ splice out.old at (right_aligned w n) }
{
    let end = at + w;
    let start = put_digits(out, end, n);
    out[at..start].fill(b' ');
    end
}
