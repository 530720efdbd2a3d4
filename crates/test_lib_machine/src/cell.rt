// A cell of the plain machine: what each call on it answers, and what it does to its sets.
use crate::sets::{Place, Set, Sets};
use lta_spec::{Loss, Refusal, Shape};
use test_lib_rules::call::{
    ADD, Answer, Bin, Call, IDLE, LAST, ORDERED, Op, SAVE, SPEED_DUMP, counted, data_bin,
    loss_number, next_block,
};
use test_lib_rules::frame_words;
use test_lib_rules::history::{Quantity, Sampler};
use test_lib_rules::places::{behind, places};
use test_lib_tools::bytes::Kind;
use test_lib_tools::refusal::unless;

// "Open .. 524,288", and of a bin "16,777,215 members".
const FULL: u64 = 524_288;

const WIDE: u64 = 16_777_215;

#[derive(Clone, Copy, Debug, Default, PartialEq, Eq)]
pub enum State {
    #[default]
    Free,
    Filling,
    Ready,
}

// A bin but its set: its state, its stamp, and how many picks there had been when it became Ready.
#[derive(Clone, Copy, Debug, Default, PartialEq, Eq)]
pub struct Slot {
    pub state: State,
    pub stamp: u64,
    since: u64,
}

impl Slot {
    pub fn is_ready(&self) -> bool {
        self.state == State::Ready
    }

    // Has it been Ready for so many picks?
    pub fn is_late(&self, picks: u64, most: u64) -> bool {
        self.is_ready() && picks.saturating_sub(self.since) >= most
    }

    // A bin gets a state: where it becomes Ready, its wait begins.
    fn enter(&mut self, state: State, picks: u64) {
        if state == State::Ready && !self.is_ready() {
            self.since = picks;
        }
        self.state = state;
    }
}

// What Held keeps beside its set; it stays where Held becomes unoccupied.
#[derive(Clone, Copy, Debug, PartialEq, Eq)]
pub struct Label {
    pub command: u64,
    pub bin: Bin,
}

// Two banks of 16 bins.
const SLOTS: usize = 32;

#[derive(Clone, Copy)]
pub struct Cell {
    pub shape: Shape,
    pub sampler: Sampler,
    pub sets: Sets,
    // Held's flag and label; the stamps of Open and of Held.
    pub occupied: bool,
    pub label: Label,
    pub open_stamp: u64,
    pub held_stamp: u64,
    // The current block, counted from S, and the command that counts as the last.
    pub block: u64,
    pub last: Option<u64>,
    slots: [Slot; SLOTS],
    // The place of the bin last picked.
    picked: Option<u64>,
}

impl Cell {
    pub fn new(shape: Shape, sampler: Sampler) -> Cell {
        Cell {
            shape,
            sampler,
            sets: Sets::new(),
            occupied: false,
            label: Label {
                command: SAVE,
                bin: Bin { bank: 0, bin: 0 },
            },
            open_stamp: 0,
            held_stamp: 0,
            block: 0,
            last: None,
            slots: [Slot::default(); SLOTS],
            picked: None,
        }
    }

    // The bins, bank 0's and then bank 1's.
    pub fn slots(&self) -> &[Slot] {
        let count = places(self.shape.bins) as usize;
        self.slots.get(..count).unwrap_or(&self.slots)
    }

    // The bin at place q.
    pub fn slot(&self, q: u64) -> Slot {
        self.slots.get(q as usize).copied().unwrap_or_default()
    }

    fn slot_mut(&mut self, q: u64) -> Option<&mut Slot> {
        self.slots.get_mut(q as usize)
    }

    // The I or Q sum of a set at lag k, or its valid count there.
    pub fn sum(&self, set: Set, k: u64, quantity: Quantity) -> u64 {
        let n = self.shape.lags;
        let sampler = self.sampler;
        self.sets
            .total(set, |ticks| sampler.stretch(n, k, quantity, ticks))
    }

    // The ticks of a set, and its valid counts at the edge and at the centre.
    pub fn counts(&self, set: Set) -> [u64; 3] {
        [
            self.sets.members(set),
            self.sum(set, 0, Quantity::Valid),
            self.sum(set, self.shape.lags / 2, Quantity::Valid),
        ]
    }

    fn members(&self, place: Place) -> u64 {
        self.sets.members(Set::Of(place))
    }

    // Has Open 524,288 members?
    pub fn is_held_off(&self) -> bool {
        self.members(Place::Open) >= FULL
    }

    // "t joins Open if Open has fewer than 524,288 members, else loss 6."
    pub fn tick(&mut self) {
        let place = if self.is_held_off() {
            Place::Lost(Loss::Holdoff)
        } else {
            Place::Open
        };
        self.sets.join(place);
    }

    // Where a dump sends Open: "111: nothing. 100: Open goes to loss 1. 000 (save), 001 (add), 010 (last): if Held is
    // occupied, Open goes to loss 2; else Open and the label go to Held"; of 011 "Open becomes its set", a frame's.
    fn destination(&self, command: u64) -> Option<Place> {
        match command {
            IDLE => None,
            ORDERED => Some(Place::Lost(Loss::Ordered)),
            SPEED_DUMP => Some(Place::Frame),
            _ if self.occupied => Some(Place::Lost(Loss::Overrun)),
            _ => Some(Place::Held),
        }
    }

    // "the loss number .. 0 if kept, 7 for 111". Of command 011: "answers its length", "10 applies to it last"; Held is
    // not asked.
    fn dump_says(&self, command: u64, bytes: u64) -> Answer {
        match self.destination(command) {
            None => Ok(IDLE),
            Some(Place::Lost(loss)) => Ok(loss_number(loss)),
            Some(Place::Frame) => frame_words::says(self.shape.lags, Kind::Speed, bytes),
            Some(_) => Ok(0),
        }
    }

    // The block after a dump but 111, counted from S.
    fn block_after(&self, command: u64) -> u64 {
        next_block(self.block, self.last, command, self.shape.blocks)
    }

    // The data bin in the label of a dump but 111, with the block as it is after the dump's step.
    pub fn dump_bin(&self, command: u64, phase: u64) -> u64 {
        data_bin(phase, self.shape.blocks, self.block_after(command))
    }

    // "An integration's stamp is t at its cell's previous accepted dump other than 111"; 011 "leaves Held as it is".
    pub fn dump(&mut self, command: u64, bank: u64, phase: u64) {
        let Some(to) = self.destination(command) else {
            return;
        };
        if to == Place::Held {
            let bin = self.dump_bin(command, phase);
            self.occupied = true;
            self.label = Label {
                command,
                bin: Bin { bank, bin },
            };
            self.held_stamp = self.open_stamp;
        }
        self.block = self.block_after(command);
        self.last = Some(counted(command));
        self.sets.send(Place::Open, to);
        self.open_stamp = self.sets.time();
    }

    // The place of the bin of Held's label.
    fn label_bin(&self) -> u64 {
        self.label.bin.place(self.shape.bins)
    }

    // The loss that an integration adds to. "Bin Ready: to loss 3. Command 000 on a Filling bin: .. loss 4 .. Command
    // 001 or 010 where the joint set would pass 16,777,215 members: Held goes to loss 5. Otherwise it joins the set."
    fn integrate_loss(&self) -> Option<Loss> {
        let q = self.label_bin();
        let joint = self
            .members(Place::Bin(q))
            .wrapping_add(self.members(Place::Held));
        match (self.slot(q).state, self.label.command) {
            (State::Ready, _) => Some(Loss::Full),
            (State::Filling, SAVE) => Some(Loss::Replaced),
            (_, ADD | LAST) if joint > WIDE => Some(Loss::Wide),
            _ => None,
        }
    }

    // "8: Held unoccupied", or the loss.
    fn integrate_says(&self) -> Answer {
        unless(self.occupied, Refusal::NothingHeld)?;
        Ok(self.integrate_loss().map_or(0, loss_number))
    }

    // "A bin's stamp is that of the integration that took it out of Free or replaced its set."
    fn stamp_bin(&mut self, q: u64, loss: Option<Loss>) {
        let stamp = self.held_stamp;
        if let Some(slot) = self.slot_mut(q) {
            if loss == Some(Loss::Replaced) || slot.state == State::Free {
                slot.stamp = stamp;
            }
        }
    }

    // "the bin's old set goes to loss 4" and "Held replaces it", or "Otherwise it joins the set."
    fn bin_held(&mut self, q: u64, loss: Option<Loss>) {
        self.stamp_bin(q, loss);
        if let Some(loss) = loss {
            self.sets.send(Place::Bin(q), Place::Lost(loss));
        }
        self.sets.send(Place::Held, Place::Bin(q));
    }

    // Held's set goes to loss 3 or 5, or to its bin.
    fn send_held(&mut self, q: u64, loss: Option<Loss>) {
        match loss {
            Some(loss @ (Loss::Full | Loss::Wide)) => {
                self.sets.send(Place::Held, Place::Lost(loss));
            }
            _ => self.bin_held(q, loss),
        }
    }

    // "A Free bin becomes Filling. After 010 a bin is Ready, also after loss 5." Held "becomes unoccupied".
    pub fn integrate(&mut self, picks: u64) {
        let q = self.label_bin();
        let loss = self.integrate_loss();
        self.send_held(q, loss);
        let after = if self.label.command == LAST || loss == Some(Loss::Full) {
            State::Ready
        } else {
            State::Filling
        };
        if let Some(slot) = self.slot_mut(q) {
            slot.enter(after, picks);
        }
        self.occupied = false;
    }

    // "9: bin not Ready, 10: buffer shorter than a frame", or the frame's length.
    fn emit_says(&self, bin: Bin, bytes: u64) -> Answer {
        unless(
            self.slot(bin.place(self.shape.bins)).is_ready(),
            Refusal::NotReady,
        )?;
        frame_words::says(self.shape.lags, Kind::Binned, bytes)
    }

    // "its set becomes that of a frame, and the bin Free and empty".
    pub fn emit(&mut self, bin: Bin) {
        let q = bin.place(self.shape.bins);
        self.sets.send(Place::Bin(q), Place::Frame);
        if let Some(slot) = self.slot_mut(q) {
            slot.state = State::Free;
        }
    }

    // What a call on the cell says whose arguments are right; of a forecast, request 2026-02, "exactly 524,288 less the
    // ticks in the open integration".
    pub fn says(&self, k: Call) -> Answer {
        match k.op {
            Op::Dump { command, .. } => self.dump_says(command, k.bytes),
            Op::Integrate => self.integrate_says(),
            Op::Emit(bin) => self.emit_says(bin, k.bytes),
            Op::Forecast => Ok(FULL.saturating_sub(self.members(Place::Open))),
            _ => Ok(0),
        }
    }

    // "a number of Ready bins for each cell".
    pub fn ready(&self) -> u64 {
        self.slots().iter().filter(|slot| slot.is_ready()).count() as u64
    }

    // Where the next pick starts: "after the bin last picked in that cell (at first from bank 0, bin 0)".
    pub fn next_bin(&self) -> u64 {
        self.picked
            .map_or(0, |q| behind(q, 1, places(self.shape.bins)))
    }

    // "it goes round bank 0's bins and then bank 1's": the place of the first that is Ready.
    pub fn picked_bin(&self) -> Option<u64> {
        let count = places(self.shape.bins);
        let first = self.next_bin();
        (0..count)
            .map(|j| behind(first, j, count))
            .find(|&q| self.slot(q).is_ready())
    }

    // A pick has taken this bin.
    pub fn serve(&mut self, bin: Bin) {
        self.picked = Some(bin.place(self.shape.bins));
    }
}
