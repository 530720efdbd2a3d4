// Counts of rows that agree and rows that do not, and the lines that say so. `line` and `verdict` answer whether theirs
// was written; `group` and `show_verdict` drop one that was not, so that a test program works to its end all the same.
use std::{fmt, io};

// Rows that agree and rows that differ, and those in which a refusal is due.
#[derive(Clone, Copy, Debug, Default, PartialEq, Eq)]
pub struct Tally {
    pub agree: u64,
    pub differ: u64,
    pub refusals: u64,
}

impl Tally {
    // One row more: did it agree, and was a refusal due?
    pub fn row(&mut self, agrees: bool, refused: bool) {
        self.agree = self.agree.wrapping_add(u64::from(agrees));
        self.differ = self.differ.wrapping_add(u64::from(!agrees));
        self.refusals = self.refusals.wrapping_add(u64::from(refused));
    }

    // A row in which no refusal is due.
    pub fn note(&mut self, agrees: bool) {
        self.row(agrees, false);
    }

    // The rows of another group.
    pub fn include(&mut self, other: &Tally) {
        self.agree = self.agree.wrapping_add(other.agree);
        self.differ = self.differ.wrapping_add(other.differ);
        self.refusals = self.refusals.wrapping_add(other.refusals);
    }

    // A group that was run with frames of N lags: its line, as soon as it is done, and its rows.
    pub fn group(&mut self, rt: &impl Print, n: u64, name: &str, rows: Tally) {
        let _ = line(rt, n, name, &rows);
        self.include(&rows);
    }

    // The last line: "all agree", or "FAILED" and how many rows.
    pub fn verdict(&self, rt: &impl Print) -> io::Result<()> {
        if self.differ == 0 {
            println!(rt; "all agree")
        } else {
            print!(rt; "FAILED {}", self.differ)
        }
    }

    // The last line, if it can be written.
    pub fn show_verdict(&self, rt: &impl Print) {
        let _ = self.verdict(rt);
    }
}

// As in a group's line: "12 of 12 rows agree, 7 refusals".
impl fmt::Display for Tally {
    fn fmt<W: fmt::Write>(&self, f: &mut fmt::Formatter<W>) -> fmt::Result {
        let rows = self.agree.wrapping_add(self.differ);
        write!(
            f,
            "{} of {rows} rows agree, {} refusals",
            self.agree, self.refusals
        )
    }
}

// The line of a group that was run with frames of N lags.
pub fn line(rt: &impl Print, n: u64, name: &str, tally: &Tally) -> io::Result<()> {
    println!(rt; "N = {n}, {name:8} {tally}")
}
