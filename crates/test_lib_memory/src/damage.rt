// What 11 is told of in any words of work memory: the parts of a cell, and which of them each call tests.
use crate::cells::{Cell, LONG, Row, SHORT, WIDE};
use crate::map::{Field, Set, State, greatest};
use lta_spec::Loss;
use test_lib_rules::call::{LAST, LOSSES, Op};

impl Set {
    fn limit(self) -> u64 {
        match self {
            Set::Open | Set::Held => SHORT,
            Set::Bin(_) => WIDE,
            Set::Lost(_) => LONG,
        }
    }
}

impl Row<'_> {
    // Ticks within their limit, "a count passes its ticks", "a sum passes 98 × ticks in size", with 128 for 98.
    fn is_bad(self, limit: u64) -> bool {
        let ticks = self.ticks();
        let most = greatest(ticks);
        ticks > limit
            || self.edge() > ticks
            || self.centre() > ticks
            || self.sums().iter().any(|&sum| sum > most)
    }
}

// The parts of a cell.
impl Cell<'_> {
    fn row_bad(self, set: Set) -> bool {
        self.row(set).is_bad(set.limit())
    }

    // Open: its row, and "a stamp passes t".
    fn open_bad(self) -> bool {
        self.row_bad(Set::Open) || self.field(Field::OpenStamp) > self.run.now()
    }

    // Held but its label: flag, row, stamp, "an unoccupied Held .. isn't empty".
    fn held_bad(self) -> bool {
        let flag = self.field(Field::Flag);
        flag > 1
            || self.row_bad(Set::Held)
            || self.field(Field::HeldStamp) > self.run.now()
            || (flag == 0 && self.ticks(Set::Held) != 0)
    }

    // "label (000, 001 or 010; bank 0 or 1; data bin below B)".
    fn label_bad(self) -> bool {
        self.field(Field::Command) > LAST
            || self.field(Field::Bank) > 1
            || self.field(Field::Bin) >= self.run.shape.bins
    }

    // A bin: state, row, stamp, "a Free bin isn't empty".
    fn bin_bad(self, q: u64) -> bool {
        let state_bad = match self.state(q) {
            None => true,
            Some(State::Free) => self.ticks(Set::Bin(q)) != 0,
            Some(_) => false,
        };
        state_bad || self.row_bad(Set::Bin(q)) || self.stamp(q) > self.run.now()
    }

    // A bin that is tested, with the number of Ready bins beside it.
    fn counted_bad(self, q: u64) -> bool {
        self.bin_bad(q) || self.ready_bad(q)
    }

    // All six losses.
    fn losses_bad(self) -> bool {
        LOSSES.iter().any(|&loss| self.row_bad(Set::Lost(loss)))
    }

    // "a shift register entry is one that no sampler byte gives": above 511.
    fn registers_bad(self) -> bool {
        self.entries().iter().any(|&entry| entry > 511)
    }

    // "this call would take a loss past 2,147,483,648 ticks".
    fn is_past(self, loss: Loss, more: u64) -> bool {
        self.ticks(Set::Lost(loss)).saturating_add(more) > LONG
    }
}

// What each call tests of a cell.
impl Cell<'_> {
    // A tick: "shift registers, Open and losses"; a full cell adds 1 to loss 6.
    pub fn tick_bad(self) -> bool {
        let holdoff_past = self.is_full() && self.is_past(Loss::Holdoff, 1);
        self.registers_bad() || self.open_bad() || self.losses_bad() || holdoff_past
    }

    // A page: its losses "and six that together pass 2,147,483,648 ticks".
    pub fn page_bad(self) -> bool {
        let add = |sum: u64, &loss: &Loss| sum.saturating_add(self.ticks(Set::Lost(loss)));
        self.losses_bad() || LOSSES.iter().fold(0, add) > LONG
    }

    // A pick: "every cell's bins, Ready numbers that differ from them and places not in the run".
    pub fn pick_bad(self) -> bool {
        let places = self.run.layout.places();
        (0..places).any(|q| self.bin_bad(q))
            || self.field(Field::Ready) != self.ready()
            || self.field(Field::NextBin) >= places
    }

    // "A stored block outside S to S + M - 1 or an unknown last command is 11 in a dump": the command + 1 of 000, 001,
    // 010 and 100, or 0 for none.
    fn counter_bad(self) -> bool {
        let last = self.field(Field::LastCommand);
        self.field(Field::Block) >= self.run.shape.blocks || !matches!(last, 0..=3 | 5)
    }

    // "dump, the cell's Open, Held and losses".
    fn dump_bad(self, command: u64) -> bool {
        let more = self.ticks(Set::Open);
        self.counter_bad()
            || self.open_bad()
            || self.held_bad()
            || self.label_bad()
            || self.losses_bad()
            || self
                .dump_loss(command)
                .is_some_and(|loss| self.is_past(loss, more))
    }

    // What an integration adds to its loss: the bin's old set to loss 4, and Held to the others.
    fn integrate_past(self) -> bool {
        match self.integrate_loss() {
            None => false,
            Some(Loss::Replaced) => {
                self.is_past(Loss::Replaced, self.ticks(Set::Bin(self.label_bin())))
            }
            Some(loss) => self.is_past(loss, self.ticks(Set::Held)),
        }
    }

    // "its label and bin", where Held is occupied.
    fn label_or_bin_bad(self) -> bool {
        self.label_bad() || self.counted_bad(self.label_bin()) || self.integrate_past()
    }

    // "integration, Held, losses and, where Held is occupied, its label and bin"; where it is not, no bin is tested,
    // and of the number of Ready bins its limit alone.
    fn integrate_bad(self) -> bool {
        let held = self.held_bad() || self.losses_bad() || self.ready_past();
        held || (self.field(Field::Flag) != 0 && self.label_or_bin_bad())
    }

    // 11, of a call whose arguments are right: "emission, the bin; reading, the losses; forecast, Open".
    pub fn is_damaged(self, op: Op) -> bool {
        match op {
            Op::Dump { command, .. } => self.dump_bad(command),
            Op::Integrate => self.integrate_bad(),
            Op::Emit(bin) => self.counted_bad(self.run.layout.number(bin)),
            Op::Reading { .. } => self.losses_bad(),
            _ => self.open_bad(),
        }
    }
}
