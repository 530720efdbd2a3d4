// The sets of a cell: the tick numbers 0 to t - 1 fall in spans of neighbours that have one place; a set is the spans
// of its place, and a move of a set renames them.
use lta_spec::Loss;
use std::ops::Range;

// Where a tick is: in Open, in a loss, in Held, in some emitted frame, or in the bin at a place of the round.
#[derive(Clone, Copy, Debug, PartialEq, Eq)]
pub enum Place {
    Open,
    Lost(Loss),
    Held,
    Frame,
    Bin(u64),
}

// The ticks of a place, or all six losses of a cell as one set.
#[derive(Clone, Copy, Debug, PartialEq, Eq)]
pub enum Set {
    Of(Place),
    Ledger,
}

impl Set {
    fn has(self, place: Place) -> bool {
        match self {
            Set::Of(p) => p == place,
            Set::Ledger => matches!(place, Place::Lost(_)),
        }
    }
}

// A span ends where the next one starts, and the last one at t.
#[derive(Clone, Copy, Debug, PartialEq, Eq)]
struct Span {
    first: u64,
    place: Place,
}

// A tick that finds no room for its span is in another set, and the comparison of its memory fails.
const ROOM: usize = 896;

#[derive(Clone, Copy)]
pub struct Sets {
    spans: [Span; ROOM],
    count: usize,
    time: u64,
}

impl Sets {
    // No tick yet.
    pub fn new() -> Sets {
        let none = Span {
            first: 0,
            place: Place::Open,
        };
        Sets {
            spans: [none; ROOM],
            count: 0,
            time: 0,
        }
    }

    // t.
    pub fn time(&self) -> u64 {
        self.time
    }

    fn spans(&self) -> &[Span] {
        self.spans.get(..self.count).unwrap_or(&self.spans)
    }

    // What a function of ticks gives for the spans of a set, in all.
    pub fn total<F: Fn(Range<u64>) -> u64>(&self, set: Set, of: F) -> u64
        requires { F.IsAlwaysCallable of }
    {
        let mut total: u64 = 0;
        let mut end = self.time;
        for span in self.spans().iter().rev() {
            if set.has(span.place) {
                total = total.wrapping_add(of(span.first..end));
            }
            end = span.first;
        }
        total
    }

    // The members of a set.
    pub fn members(&self, set: Set) -> u64 {
        self.total(set, |ticks| ticks.end.saturating_sub(ticks.start))
    }

    // A set goes to another place, and its own is empty.
    pub fn send(&mut self, from: Place, to: Place) {
        for span in self.spans.iter_mut().take(self.count) {
            if span.place == from {
                span.place = to;
            }
        }
    }

    // Tick t joins a set, and t grows by 1.
    pub fn join(&mut self, place: Place) {
        let last = self.spans().last().map(|span| span.place);
        if last != Some(place) {
            self.open(place);
        }
        self.time = self.time.wrapping_add(1);
    }

    // A span that starts with tick t.
    fn open(&mut self, place: Place) {
        if let Some(span) = self.spans.get_mut(self.count) {
            *span = Span {
                first: self.time,
                place,
            };
            self.count = self.count.wrapping_add(1);
        }
    }
}
