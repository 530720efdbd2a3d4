// The calls on frames. Each contract is that of the call of crate frame that it makes, its answer packed.
ghost use Rattle.std.specs.Prelude.{◌≡◌, length};
ghost use Rattle.lta_spec.specs.FrameCalls.{write_answer, write_leaves};
ghost use Rattle.host_pack.specs.Boundary.{fields_in, packed, stored, head_in, pair_in};
ghost use Rattle.lta_c.specs.Answers.{read_told, part_told, normal_told};

use host_pack::numbers::fields_in;
use host_pack::pack::pack;
use host_values::{store_fields, store_pair};

// The fields of a frame.
#[unsafe(no_mangle)]
pub extern "C" fn lta_read_frame(lags: u64, bytes: &[u8], head: &mut [u32]) -> u64
    ensures answer { result ≡ packed (read_told lags bytes.now head.old) }
    ensures leaves { head.new
        ≡ stored head.old 0 (head_in (read_told lags bytes.now head.old)) }
{
    store_fields(frame::read_frame(lags, bytes), head)
}

// Where the part of a frame is that holds its lag pairs: 65,536 × offset + length.
#[unsafe(no_mangle)]
pub extern "C" fn lta_lag_part(lags: u64, bytes: &[u8]) -> u64
    ensures { result ≡ part_told lags bytes.now }
{
    let part = frame::lag_span(lags, bytes);
    65536 * part.at + part.length
}

// The frame of ten fields and 2N lag numbers, at the start of out.
#[unsafe(no_mangle)]
pub extern "C" fn lta_write_frame(lags: u64, head: &[u32], numbers: &[i32], out: &mut [u8]) -> u64
    ensures answer { result
        ≡ packed (write_answer lags (fields_in head.now) numbers.now
        (length out.old)) }
    ensures leaves { out.new
        ≡ write_leaves lags (fields_in head.now) numbers.now out.old }
{
    pack(frame::write_frame(lags, fields_in(head), numbers, out))
}

// One lag of a frame, normalised by its centre count.
#[unsafe(no_mangle)]
pub extern "C" fn lta_normalised_lag(lags: u64, bytes: &[u8], lag: u64, pair: &mut [f64]) -> u64
    ensures answer { result ≡ packed (normal_told lags bytes.now lag pair.old) }
    ensures leaves { pair.new
        ≡ stored pair.old 0 (pair_in (normal_told lags bytes.now lag pair.old)) }
{
    store_pair(frame::normalised_lag(lags, bytes, lag), pair)
}
