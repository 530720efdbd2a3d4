// A block of a script's bytes: bytes read behind those that are kept, bytes moved to the front, and the number that END
// says of what is left.
#![tactic(auto)]

ghost use Rattle.std.specs.Prelude.{◌≡◌, ◌≤◌, length, take};
ghost use Rattle.script_bytes.specs.Bytes.{stops_at};
ghost use Rattle.script_block.specs.Block.{Filled, Left, end_number};

use lta_spec::Refusal;
use std::io::Read;

// Reads what has come, behind the bytes that are kept; answers how many bytes there are then. A read that fails is the
// end of the input.
pub fn fill<R: Read>(input: &mut R, block: &mut [u8], kept: usize) -> usize
    requires { kept ≤ length block.old }
    ensures { Filled kept block.old result block.new }
{
    kept + input.read(&mut block[kept..]).unwrap_or(0)
}

// Moves what is left of the first n bytes, those from `at` on, to the front; answers how many bytes these are.
pub fn to_front(block: &mut [u8], at: usize, n: usize) -> usize
    requires inside { n ≤ length block.old }
    requires stopped { at ≡ stops_at (take n block.old) }
    ensures { Left (take n block.old) result block.new }
{
    block.copy_within(at..n, 0);
    n - at
}

// The number behind END: 0 where nothing is left, and else 17.
pub fn end_number(left: &[u8]) -> u64
    ensures { result ≡ end_number left.now }
{
    if left.is_empty() {
        0
    } else {
        u64::from(Refusal::BadRecord)
    }
}
