// What a call says to any words of work memory: the first refusal that applies, or its answer.
use crate::cells::{Cell, LONG, Run, SHORT, WIDE};
use crate::map::{Field, Set, State};
use lta_spec::{Loss, Refusal, Shape};
use test_lib_rules::call::{
    Answer, Bin, Call, IDLE, ORDERED, Op, SAVE, SPEED_DUMP, loss_number, tested,
};
use test_lib_rules::{frame_words, page};
use test_lib_tools::bytes::Kind;
use test_lib_tools::refusal::unless;

// The number of a loss, 0 for none.
fn number(loss: Option<Loss>) -> u64 {
    loss.map_or(0, loss_number)
}

// What each call says of a cell to which 11 does not apply.
impl Cell<'_> {
    // The loss that a dump adds to. 011 "leaves Held as it is", so that no Held makes it an overrun.
    pub fn dump_loss(self, command: u64) -> Option<Loss> {
        match command {
            ORDERED => Some(Loss::Ordered),
            SPEED_DUMP | IDLE => None,
            _ => (self.field(Field::Flag) == 1).then_some(Loss::Overrun),
        }
    }

    // The bin that Held's label names.
    pub fn label_bin(self) -> u64 {
        let bank = self.field(Field::Bank);
        let bin = self.field(Field::Bin);
        self.run.layout.number(Bin { bank, bin })
    }

    // The loss that an integration adds to.
    pub fn integrate_loss(self) -> Option<Loss> {
        let q = self.label_bin();
        let joint = self
            .ticks(Set::Bin(q))
            .saturating_add(self.ticks(Set::Held));
        match (self.state(q), self.field(Field::Command)) {
            (Some(State::Ready), _) => Some(Loss::Full),
            (Some(State::Filling), SAVE) => Some(Loss::Replaced),
            (_, SAVE) => None,
            _ => (joint > WIDE).then_some(Loss::Wide),
        }
    }

    // Of 011: "10 applies to it last", or the frame's length; of another command the loss, or 7 for 111.
    fn dump_says(self, command: u64, bytes: u64) -> Answer {
        match command {
            SPEED_DUMP => frame_words::says(self.run.shape.lags, Kind::Speed, bytes),
            IDLE => Ok(IDLE),
            _ => Ok(number(self.dump_loss(command))),
        }
    }

    // "8: Held unoccupied", or the loss.
    fn integrate_says(self) -> Answer {
        unless(self.field(Field::Flag) != 0, Refusal::NothingHeld)?;
        Ok(number(self.integrate_loss()))
    }

    // "9: bin not Ready, 10: buffer shorter than a frame", or the frame's length.
    fn emit_says(self, bin: Bin, bytes: u64) -> Answer {
        let q = self.run.layout.number(bin);
        unless(self.is_ready(q), Refusal::NotReady)?;
        frame_words::says(self.run.shape.lags, Kind::Binned, bytes)
    }

    // A call on one cell; "11: t is above 2,147,483,648". Of a forecast, request 2026-02, "exactly 524,288 less the
    // ticks in the open integration".
    fn says(self, k: Call) -> Answer {
        let bad = self.run.now() > LONG || self.is_damaged(k.op);
        unless(!bad, Refusal::Damaged)?;
        match k.op {
            Op::Dump { command, .. } => self.dump_says(command, k.bytes),
            Op::Integrate => self.integrate_says(),
            Op::Emit(bin) => self.emit_says(bin, k.bytes),
            Op::Reading { .. } => Ok(0),
            _ => Ok(SHORT.saturating_sub(self.ticks(Set::Open))),
        }
    }
}

impl Run<'_> {
    // "4: t is 2,147,483,648. Then 11." "a tick, the number of cells held off".
    fn tick_says(&self) -> Answer {
        let cells = self.shape.cells;
        unless(self.now() != LONG, Refusal::RunFull)?;
        let bad = self.now() > LONG || (0..cells).any(|c| self.cell(c).tick_bad());
        unless(!bad, Refusal::Damaged)?;
        Ok((0..cells).filter(|&c| self.cell(c).is_full()).count() as u64)
    }

    // A page: 11, then 10.
    fn page_says(&self, bytes: u64) -> Answer {
        let cells = self.shape.cells;
        let bad = self.now() > LONG || (0..cells).any(|c| self.cell(c).page_bad());
        unless(!bad, Refusal::Damaged)?;
        page::says(cells, bytes)
    }

    // A pick: 11, 20, then 10.
    fn pick_says(&self, bytes: u64) -> Answer {
        let cells = self.shape.cells;
        let run_bad = self.now() > LONG || self.next_cell() >= cells;
        let bad = run_bad || (0..cells).any(|c| self.cell(c).pick_bad());
        unless(!bad, Refusal::Damaged)?;
        unless(self.picked().is_some(), Refusal::NothingReady)?;
        frame_words::says(self.shape.lags, Kind::Binned, bytes)
    }
}

// Any call.
pub fn says(s: Shape, words: &[u64], k: Call) -> Answer {
    tested(s, k)?;
    let run = Run::of(s, words).ok_or(Refusal::BadShape)?;
    match k.op {
        Op::Tick(_) => run.tick_says(),
        Op::Page => run.page_says(k.bytes),
        Op::Pick(_) => run.pick_says(k.bytes),
        _ => run.cell(k.cell).says(k),
    }
}
