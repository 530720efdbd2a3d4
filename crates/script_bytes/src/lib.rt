// What stands at the head of some bytes of a script, and at a position in them.
#![tactic(auto)]

ghost use Rattle.std.specs.Prelude.{◌≡◌, take, drop};
ghost use Rattle.script_bytes.specs.Bytes.{kind_in, size_in, next_in, next_at, unknown_mark};

use script_records::{Kind, Next};

// The kind of the record whose letters stand at the head of some bytes.
fn kind_in(b: &[u8]) -> Option<Kind>
    ensures { result ≡ kind_in b.now }
{
    let [first, second, ..] = *b else {
        return None;
    };
    Kind::try_from([first, second]).ok()
}

// How many bytes the head of some bytes wants: two letters, and then as many as they say.
fn size_in(b: &[u8]) -> usize
    ensures { result ≡ size_in b.now }
{
    kind_in(b).map_or(2, Kind::size)
}

// What stands at the head of some bytes.
pub fn next_in(b: &[u8]) -> Next
    ensures { result ≡ next_in b.now }
{
    let Some(kind) = kind_in(b) else {
        return if b.is_empty() { Next::End } else { Next::Cut };
    };
    if kind.size() <= b.len() {
        Next::Record(kind.record_in(b))
    } else {
        Next::Cut
    }
}

// The first n bytes, or all where there are fewer.
pub fn head(b: &[u8], n: usize) -> &[u8]
    ensures { result.now ≡ take n b.now }
{
    b.get(..n).unwrap_or(b)
}

// The bytes from `at` on.
pub fn tail(b: &[u8], at: usize) -> &[u8]
    ensures { result.now ≡ drop at b.now }
{
    b.get(at..).unwrap_or(&[])
}

// What stands at a position.
pub fn next_at(b: &[u8], at: usize) -> Next
    ensures { result ≡ next_at b.now at }
{
    next_in(tail(b, at))
}

// How many bytes what stands at a position wants.
pub fn size_at(b: &[u8], at: usize) -> usize
    ensures { result ≡ size_in (drop at b.now) }
{
    size_in(tail(b, at))
}

// Whether two letters stand at the head that are no record's.
pub fn unknown_mark(b: &[u8]) -> bool
    ensures { result ≡ unknown_mark b.now }
{
    2 <= b.len() && kind_in(b).is_none()
}
