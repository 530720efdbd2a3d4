// A 32-bit word in bytes, low byte first, read and written; a lag number as a two's complement word.
#![tactic(auto)]

ghost use Rattle.std.specs.Prelude.{◌≡◌, ◌+◌, ◌*◌, ◌≤◌, length, get_or, [], ◌∷◌};
ghost use Rattle.lta_spec.specs.Words.{splice};
ghost use Rattle.lta_spec.specs.Bytes.{bytes_of, words_of, number_word, signed};
ghost use Rattle.lta_spec.specs.Frame.{within};

// Word k of the bytes.
pub fn word_at(s: &[u8], k: usize) -> u32
    requires { 4 * k + 4 ≤ length s.now }
    ensures { result ≡ get_or (words_of s.now) k 0 }
{
    let at = 4 * k;
    u32::from_le_bytes([s[at], s[at + 1], s[at + 2], s[at + 3]])
}

// w as word k of the bytes.
pub fn put_word(s: &mut [u8], k: usize, w: u32)
    requires { 4 * k + 4 ≤ length s.old }
    ensures { s.new ≡ splice s.old (4 * k) (bytes_of (w ∷ [])) }
{
    let at = 4 * k;
    s[at..at + 4].copy_from_slice(&w.to_le_bytes());
}

// The two's complement word of a number.
pub fn word_of(x: i32) -> u32
    ensures { result ≡ number_word x }
{
    x.cast_unsigned()
}

// The number of a two's complement word.
pub fn number_of(w: u32) -> i32
    ensures { result ≡ signed w }
{
    w.cast_signed()
}

// Is the number of a word no further from 0 than b?
pub fn word_within(w: u32, b: u32) -> bool
    ensures { result ≡ within b (signed w) }
{
    number_of(w).unsigned_abs() <= b
}
