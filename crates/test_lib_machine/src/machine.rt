// The plain machine: what each call on the run says, and what it does to the cells.
use crate::cell::Cell;
use lta_spec::{Refusal, Shape};
use test_lib_rules::call::{Answer, Bin, Call, Op};
use test_lib_rules::history::Sampler;
use test_lib_rules::places::{behind, places, taking};
use test_lib_rules::{frame_words, page};
use test_lib_tools::bytes::Kind;
use test_lib_tools::refusal::unless;

// The most cells of a run.
const CELLS: usize = 16;

#[derive(Drop)]
pub struct Machine {
    shape: Shape,
    cells: [Cell; CELLS],
    // The cell last served by a pick, and how many picks have served one.
    served: Option<u64>,
    picks: u64,
}

impl Machine {
    // A fresh run.
    pub fn new(shape: Shape, seed: u64) -> Machine {
        let mut cells = [Cell::new(shape, Sampler { seed, cell: 0 }); CELLS];
        for (c, cell) in cells.iter_mut().enumerate() {
            cell.sampler.cell = c as u64;
        }
        Machine {
            shape,
            cells,
            served: None,
            picks: 0,
        }
    }

    pub fn shape(&self) -> Shape {
        self.shape
    }

    pub fn cells(&self) -> &[Cell] {
        let count = self.shape.cells as usize;
        self.cells.get(..count).unwrap_or(&self.cells)
    }

    pub fn cell(&self, c: u64) -> Option<&Cell> {
        self.cells().get(c as usize)
    }

    // The sampler of a cell; behind the last one they start again.
    pub fn sampler(&self, c: usize) -> Sampler {
        self.cells[c % CELLS].sampler
    }

    // t.
    pub fn time(&self) -> u64 {
        self.cells[0].sets.time()
    }

    // "a tick, the number of cells held off".
    fn tick_says(&self) -> Answer {
        let held_off = self.cells().iter().filter(|cell| cell.is_held_off());
        Ok(held_off.count() as u64)
    }

    // "20 when no cell has a Ready bin, tested .. before 10", or the frame's length.
    fn pick_says(&self, bytes: u64) -> Answer {
        unless(self.picked_cell().is_some(), Refusal::NothingReady)?;
        frame_words::says(self.shape.lags, Kind::Binned, bytes)
    }

    // What a call says whose arguments are right: 8, 9, 20 and 10, or its answer.
    pub fn says(&self, k: Call) -> Answer {
        match k.op {
            Op::Tick(_) => self.tick_says(),
            Op::Page => page::says(self.shape.cells, k.bytes),
            Op::Pick(_) => self.pick_says(k.bytes),
            _ => self.cell(k.cell).ok_or(Refusal::NoCell)?.says(k),
        }
    }

    // "Then t grows by 1."
    fn tick(&mut self) {
        for cell in self.cells.iter_mut().take(self.shape.cells as usize) {
            cell.tick();
        }
    }

    // A pick of this bin. "Naming a bin to emit moves no place": a pick does.
    fn pick(&mut self, c: u64, bin: Bin) {
        self.served = Some(c);
        self.picks = self.picks.wrapping_add(1);
        if let Some(cell) = self.cells.get_mut(c as usize) {
            cell.emit(bin);
            cell.serve(bin);
        }
    }

    // A call on one cell.
    fn apply_to(&mut self, c: u64, op: Op) {
        let picks = self.picks;
        if let Some(cell) = self.cells.get_mut(c as usize) {
            match op {
                Op::Dump {
                    command,
                    bank,
                    phase,
                } => cell.dump(command, bank, phase),
                Op::Integrate => cell.integrate(picks),
                Op::Emit(bin) => cell.emit(bin),
                _ => {}
            }
        }
    }

    // An accepted call.
    pub fn apply(&mut self, k: Call) {
        match k.op {
            Op::Tick(_) => self.tick(),
            Op::Pick(Some(bin)) => self.pick(k.cell, bin),
            op => self.apply_to(k.cell, op),
        }
    }

    // Where the next pick starts: at "the cell after the last one served (cell 0 in a fresh run)".
    pub fn next_cell(&self) -> u64 {
        self.served.map_or(0, |c| behind(c, 1, self.shape.cells))
    }

    // "going round, it takes the first cell with a Ready bin".
    fn picked_cell(&self) -> Option<u64> {
        let count = self.shape.cells;
        let first = self.next_cell();
        (0..count)
            .map(|j| behind(first, j, count))
            .find(|&c| self.cell(c).is_some_and(|cell| cell.ready() > 0))
    }

    // The call; a pick gets the bin that it takes, where there is one.
    pub fn taken(&self, k: Call) -> Call {
        if let Op::Pick(_) = k.op {
            self.with_bin(k).unwrap_or(k)
        } else {
            k
        }
    }

    fn with_bin(&self, k: Call) -> Option<Call> {
        let c = self.picked_cell()?;
        let q = self.cell(c)?.picked_bin()?;
        Some(taking(k, c, q, self.shape.bins))
    }

    // "a Ready bin is emitted within C × 2B successful picks, whatever other calls stand between": has none waited so
    // long?
    pub fn is_fair(&self) -> bool {
        let most = self.shape.cells.wrapping_mul(places(self.shape.bins));
        let picks = self.picks;
        self.cells().iter().all(|cell| cell.slots().iter().all(|slot| !slot.is_late(picks, most)))
    }
}
