// The rows of the lists, by groups.
use std::io;
use test_lib_rules::call::Op;
use test_lib_tools::report::Tally;

// A kind of call, the setups, or the memories compared.
#[derive(Clone, Copy, Debug, PartialEq, Eq)]
pub enum Group {
    Ticks,
    Dumps,
    Integrations,
    Emissions,
    Readings,
    Forecasts,
    Pages,
    Picks,
    Setups,
    Memories,
}

impl From<Op> for Group {
    fn from(op: Op) -> Group {
        match op {
            Op::Tick(_) => Group::Ticks,
            Op::Dump { .. } => Group::Dumps,
            Op::Integrate => Group::Integrations,
            Op::Emit(_) => Group::Emissions,
            Op::Reading { .. } => Group::Readings,
            Op::Forecast => Group::Forecasts,
            Op::Page => Group::Pages,
            Op::Pick(_) => Group::Picks,
        }
    }
}

// The names of the groups, in their order.
const NAMES: [&str; 10] = [
    "ticks",
    "dumps",
    "integrations",
    "emissions",
    "readings",
    "forecasts",
    "pages",
    "picks",
    "setups",
    "memories",
];

#[derive(Clone, Copy, Debug, Default, PartialEq, Eq)]
pub struct Record {
    groups: [Tally; 10],
    // The rows of the list that is run.
    pub list: Tally,
    // How many words of memory were compared.
    words: u64,
}

impl Record {
    // A row of a group, which is also one of the list.
    pub fn row(&mut self, group: Group, agrees: bool, refused: bool) {
        self.groups[group as usize].row(agrees, refused);
        self.list.row(agrees, refused);
    }

    // A row in which so many words are compared.
    pub fn memory(&mut self, agrees: bool, words: u64) {
        self.row(Group::Memories, agrees, false);
        self.words = self.words.wrapping_add(words);
    }

    // The lines of the groups, up to the first that cannot be written.
    pub fn print(&self, rt: &impl Print) -> io::Result<()> {
        for (name, tally) in NAMES.iter().zip(&self.groups) {
            group_line(rt, name, tally)?;
        }
        self.words_line(rt)
    }

    // The lines of the groups that can be written.
    pub fn show(&self, rt: &impl Print) {
        for (name, tally) in NAMES.iter().zip(&self.groups) {
            let _ = group_line(rt, name, tally);
        }
        let _ = self.words_line(rt);
    }

    fn words_line(&self, rt: &impl Print) -> io::Result<()> {
        println!(rt; "words of memory compared: {}", self.words)
    }
}

fn group_line(rt: &impl Print, name: &str, tally: &Tally) -> io::Result<()> {
    println!(rt; "{name:12} {tally}")
}
