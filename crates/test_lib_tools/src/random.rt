// Pseudo-random numbers: number i of the draws of a seed depends on these two alone.
ghost use Rattle.std.specs.Prelude.{◌<◌};

// The next of Marsaglia's xorshift numbers after x.
fn next(x: u64) -> u64 {
    let a = x ^ (x << 13);
    let b = a ^ (a >> 7);
    b ^ (b << 17)
}

// Number i of the draws of a seed.
pub fn draw(seed: u64, i: u64) -> u64 {
    let a = next(seed.wrapping_add(88172645463325252));
    let b = next(a.wrapping_add(i));
    let c = next(b.wrapping_add(0x9e37_79b9_7f4a_7c15));
    next(c) >> 4
}

// Draw i as a number below `end`, and 0 where there is none.
pub fn below(seed: u64, i: u64, end: u64) -> u64
    ensures { 0 < end → result < end }
{
    draw(seed, i).checked_rem(end).unwrap_or(0)
}

// Draw i as a number from 0 to `most`, in every fourth case one of the two ends.
pub fn upto(seed: u64, i: u64, most: u32) -> u32 {
    let x = draw(seed, i);
    match x % 8 {
        0 => 0,
        1 => most,
        _ => ((x >> 8) % (u64::from(most) + 1)) as u32,
    }
}
