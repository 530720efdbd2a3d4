// An output that takes some lines and none behind them.
use std::cell::Cell;
use std::fmt::Display;
use std::io;

#[derive(Drop)]
pub struct Output {
    // How many lines it takes.
    room: u64,
    // How many came, those too that it did not take.
    came: Cell<u64>,
}

impl Output {
    pub fn of(room: u64) -> Output {
        Output {
            room,
            came: Cell::new(0),
        }
    }

    // How many lines came.
    pub fn came(&self) -> u64 {
        self.came.get()
    }

    // Is this what a call that writes so many lines is to answer, and did it end with the first that was not taken?
    pub fn is_told<T: Drop>(&self, answer: io::Result<T>, lines: u64) -> bool {
        let due = self.room.saturating_add(1).min(lines);
        answer.is_err() == (self.room < lines) && self.came() == due
    }

    fn take(&self) -> io::Result<()> {
        let came = self.came();
        self.came.set(came.saturating_add(1));
        if came < self.room {
            Ok(())
        } else {
            Err(io::ErrorKind::BrokenPipe.into())
        }
    }
}

impl Print for Output {
    fn print<D: Display + Drop>(&self, _value: D) -> io::Result<()> {
        self.take()
    }

    fn println<D: Display + Drop>(&self, _value: D) -> io::Result<()> {
        self.take()
    }

    fn write_all(&self, _bytes: &[u8]) -> io::Result<()> {
        self.take()
    }
}
