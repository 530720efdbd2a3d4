// The test's own reading and writing of a frame's bytes, after the papers and not after the code that is tested.
// Nothing here asks anything of its caller: past the end a byte reads as 0, and a store does nothing.
ghost use Rattle.std.specs.Prelude.{◌≤◌};

// Byte i.
pub fn get(s: &[u8], i: usize) -> u8 {
    s.get(i).copied().unwrap_or(0)
}

// v as byte i.
pub fn put(s: &mut [u8], i: usize, v: u8) {
    if let Some(byte) = s.get_mut(i) {
        *byte = v;
    }
}

// The first n bytes, or all where there are fewer.
pub fn head(s: &[u8], n: usize) -> &[u8] {
    s.get(..n).unwrap_or(s)
}

// The word whose low byte is byte a.
pub fn word_at(s: &[u8], a: usize) -> u32 {
    let behind = s.get(a..).unwrap_or(&[]);
    match behind.first_chunk() {
        Some(bytes) => u32::from_le_bytes(*bytes),
        None => 0,
    }
}

// The byte with which word k behind the mark begins.
fn byte_of(k: usize) -> usize {
    k.saturating_mul(4).saturating_add(2)
}

// Word k behind the mark.
pub fn word(s: &[u8], k: usize) -> u32 {
    word_at(s, byte_of(k))
}

// w as word k behind the mark.
pub fn put_word(s: &mut [u8], k: usize, w: u32) {
    let a = byte_of(k);
    for (i, byte) in w.to_le_bytes().into_iter().enumerate() {
        put(s, a.saturating_add(i), byte);
    }
}

// The sum of the words from a up to e, "wrapping at 32 bits".
pub fn sum(s: &[u8], a: usize, e: usize) -> u32 {
    (a..e).fold(0, |total: u32, k| total.wrapping_add(word(s, k)))
}

// The most that a tick adds to a sum in size, -8 × -8 × 2: "Every 98 in document 01 and in the speed frame becomes
// 128".
pub const PEAK: u64 = 128;

// The kinds of frames, W0 bits 0-2: of the accumulator, and a speed frame.
#[derive(Clone, Copy, Debug, PartialEq, Eq)]
pub enum Kind {
    Binned = 2,
    Speed = 3,
}

impl Kind {
    pub fn number(self) -> u64 {
        self as u64
    }

    // The header words: W0 to W6, and in a speed frame DATA_BIAS, which "stands between W6 and the lags".
    pub fn heads(self) -> usize
        ensures { result ≤ 8 }
    {
        match self {
            Kind::Binned => 7,
            Kind::Speed => 8,
        }
    }

    // "Length 34 + 8N bytes"; of a speed frame "Its length is 38 + 8N".
    pub fn length(self, n: u64) -> usize
        ensures { result ≤ 1638 }
    {
        let shortest = match self {
            Kind::Binned => 34,
            Kind::Speed => 38,
        };
        shortest + 4 * twice(n)
    }

    // The number of the last word, behind the header words and N pairs.
    pub fn last(self, n: u64) -> usize
        ensures { result ≤ 408 }
    {
        self.heads() + twice(n)
    }

    // The byte with which the pairs begin, behind the mark and the header words.
    pub fn lags_at(self) -> usize
        ensures { result ≤ 34 }
    {
        2 + 4 * self.heads()
    }

    // "Last: sum of all words before it".
    pub fn is_summed(self, s: &[u8], n: u64) -> bool {
        let k = self.last(n);
        word(s, k) == sum(s, 0, k)
    }

    // Are mark and last word those of a frame, and is nothing written behind it?
    pub fn is_framed(self, s: &[u8], n: u64) -> bool {
        is_marked(s) && self.is_summed(s, n) && is_kept(s, self.length(n))
    }
}

// How many lag numbers a frame has; none where N is far past its limit.
pub fn twice(n: u64) -> usize
    ensures { result ≤ 400 }
{
    if n <= 200 { 2 * n as usize } else { 0 }
}

// "Two mark bytes 4Ch 54h".
pub fn is_marked(s: &[u8]) -> bool {
    s.starts_with(&[0x4c, 0x54])
}

// After so many bytes the pattern comes again.
const PERIOD: usize = 251;

// What stands in byte i of a buffer that nobody has written yet.
fn pattern(i: usize) -> u8 {
    (i % PERIOD) as u8
}

// The pattern's byte behind one.
fn behind(byte: u8) -> u8 {
    if byte < 250 { byte + 1 } else { 0 }
}

// The pattern in every byte.
pub fn fill_pattern(s: &mut [u8]) {
    let mut next = pattern(0);
    for byte in s {
        *byte = next;
        next = behind(next);
    }
}

// Does the pattern still stand in every byte from a on? The first of them are held to it, and each other one to the
// byte a period before.
pub fn is_kept(s: &[u8], a: usize) -> bool {
    let rest = s.get(a..).unwrap_or(&[]);
    let mut ok = true;
    let mut next = pattern(a);
    for &byte in head(rest, PERIOD) {
        ok &= byte == next;
        next = behind(next);
    }
    let later = rest.get(PERIOD..).unwrap_or(&[]);
    ok && later == head(rest, later.len())
}
