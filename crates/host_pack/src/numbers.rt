// Numbers to shapes and fields.
ghost use Rattle.std.specs.Prelude.{◌≡◌};
ghost use Rattle.host_pack.specs.Boundary.{shape_of, fields_in};

use lta_spec::{Fields, Shape};

// The shape of seven numbers; all 0 where there are not seven.
pub fn shape_of(s: &[u64]) -> Shape
    ensures { result ≡ shape_of s.now }
{
    let numbers: [u64; 7] = s.try_into().unwrap_or_default();
    let [cells, lags, bins, blocks, start, rate, second] = numbers;
    Shape {
        cells,
        lags,
        bins,
        blocks,
        start,
        rate,
        second,
    }
}

// The fields of ten numbers; all 0 where there are not ten.
pub fn fields_in(s: &[u32]) -> Fields
    ensures { result ≡ fields_in s.now }
{
    let numbers: [u32; 10] = s.try_into().unwrap_or_default();
    let [
        kind,
        cell,
        block,
        bin,
        bank,
        ticks,
        centre,
        edge,
        second,
        offset,
    ] = numbers;
    Fields {
        kind,
        cell,
        block,
        bin,
        bank,
        ticks,
        centre,
        edge,
        second,
        offset,
    }
}
