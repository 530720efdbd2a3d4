// Request 2026-03 without any state: the bytes of a page, each by its column alone. It takes the lines but the last, of
// three numbers each: ticks, edge count, centre count.
use crate::call::Answer;
use lta_spec::Refusal;
use test_lib_tools::bytes;
use test_lib_tools::refusal::unless;

// "One printed line per cell and loss", before the last.
pub const LINES_OF_A_CELL: usize = 6;

// "A page is 41 × (6C + 1) bytes".
pub fn length(cells: u64) -> u64 {
    cells.saturating_mul(6).saturating_add(1).saturating_mul(41)
}

// "its length is the answer", "A shorter buffer is refused by 10": what a page says where neither 1, 2 nor 11 applies.
pub fn says(cells: u64, bytes: u64) -> Answer {
    let right = length(cells);
    unless(bytes >= right, Refusal::ShortBuffer)?;
    Ok(right)
}

// The numbers of two lines together.
pub fn added(a: [u64; 3], b: [u64; 3]) -> [u64; 3] {
    [
        a[0].wrapping_add(b[0]),
        a[1].wrapping_add(b[1]),
        a[2].wrapping_add(b[2]),
    ]
}

// "The totals equal the sums of the lines".
pub fn totals(lines: &[[u64; 3]]) -> [u64; 3] {
    lines.iter().fold([0; 3], |sums, &line| added(sums, line))
}

// "right-aligned and filled with spaces": the byte of x that stands p columns before its last.
fn figure(x: u64, p: usize) -> u8 {
    let rest = (0..p).fold(x, |rest, _| rest / 10);
    if p > 0 && rest == 0 {
        b' '
    } else {
        b'0' + (rest % 10) as u8
    }
}

// "Column 1-2 cell, 4 loss number"; "The last line has `**` in columns 1-2, `*` in 4".
fn name(lines: usize, line: usize, column: usize) -> u8 {
    if line >= lines {
        return b'*';
    }
    match column {
        4 => b'1' + (line % LINES_OF_A_CELL) as u8,
        _ => figure(
            (line / LINES_OF_A_CELL) as u64,
            2usize.saturating_sub(column),
        ),
    }
}

// "6-16 ticks, 18-28 edge count, 30-40 centre count .. each other column is a space, and a line feed is byte 41."
fn byte(lines: &[[u64; 3]], line: usize, column: usize) -> u8 {
    let [ticks, edge, centre] = lines.get(line).copied().unwrap_or_else(|| totals(lines));
    match column {
        1 | 2 | 4 => name(lines.len(), line, column),
        6..=16 => figure(ticks, 16 - column),
        18..=28 => figure(edge, 28 - column),
        30..=40 => figure(centre, 40 - column),
        41 => b'\n',
        _ => b' ',
    }
}

// Is the buffer the page, and behind it what stood there before?
pub fn is_page(lines: &[[u64; 3]], out: &[u8]) -> bool {
    let end = lines.len().saturating_add(1).saturating_mul(41);
    let page = (0..end).all(|i| bytes::get(out, i) == byte(lines, i / 41, i % 41 + 1));
    page && bytes::is_kept(out, end)
}
