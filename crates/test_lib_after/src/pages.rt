// The page of any words of work memory.
use test_lib_memory::cells::Run;
use test_lib_memory::map::Set;
use test_lib_rules::call::LOSSES;
use test_lib_rules::page;

// The most lines before the last: six for each of 16 cells.
const MOST: usize = 96;

// The numbers of each loss of each cell.
fn lines<'a>(old: &'a Run<'a>) -> [[u64; 3]; MOST] {
    let mut lines = [[0; 3]; MOST];
    for (c, of_cell) in lines.chunks_exact_mut(LOSSES.len()).enumerate() {
        let cell = old.cell(c as u64);
        for (line, loss) in of_cell.iter_mut().zip(LOSSES) {
            let row = cell.row(Set::Lost(loss));
            *line = [row.ticks(), row.edge(), row.centre()];
        }
    }
    lines
}

// Is the buffer the page, and behind it what stood there before?
pub fn is_page<'a>(old: &'a Run<'a>, out: &[u8]) -> bool {
    let lines = lines(old);
    let end = old.shape.cells.saturating_mul(6) as usize;
    page::is_page(lines.get(..end).unwrap_or(&lines), out)
}
