// Words of a slice. Nothing here asks anything of its caller: past the end a word reads as 0, and a store does nothing.

// Word i.
pub fn get(s: &[u64], i: u64) -> u64 {
    s.get(i as usize).copied().unwrap_or(0)
}

// v as word i.
pub fn put(s: &mut [u64], i: u64, v: u64) {
    if let Some(word) = s.get_mut(i as usize) {
        *word = v;
    }
}

// The first n words, or all where there are fewer.
pub fn head(s: &[u64], n: u64) -> &[u64] {
    s.get(..n as usize).unwrap_or(s)
}

// The words from a on, or all where there are fewer.
pub fn tail(s: &[u64], a: u64) -> &[u64] {
    s.get(a as usize..).unwrap_or(s)
}

// The low 32 bits.
pub fn low_word(x: u64) -> u32 {
    (x % (1 << 32)) as u32
}

// A number that depends on a number and on what came before. Another word always gives another number.
pub fn mix(h: u64, w: u64) -> u64 {
    let a = (h ^ w).wrapping_add(0x9e37_79b9_7f4a_7c15);
    let b = a ^ (a << 13);
    let c = b ^ (b >> 7);
    c ^ (c << 17)
}

// A number for all words: another word in one place always gives another number.
pub fn digest(s: &[u64]) -> u64 {
    s.iter().fold(0, |h, &word| mix(h, word))
}
