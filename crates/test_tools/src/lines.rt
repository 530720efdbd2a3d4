// The lines of a report: what they say, as `stdout` has it, and what is answered where one cannot be written.
use crate::output::Output;
use test_lib_row::lines;
use test_lib_step::record::{Group, Record};
use test_lib_tools::report::{Tally, line};

// Two groups, and their rows together.
const FIRST: Tally = Tally {
    agree: 11,
    differ: 2,
    refusals: 5,
};

const SECOND: Tally = Tally {
    agree: 300,
    differ: 1,
    refusals: 70,
};

const BOTH: Tally = Tally {
    agree: 311,
    differ: 3,
    refusals: 75,
};

const GROUPS: [(&str, Tally); 2] = [("first", FIRST), ("second", SECOND)];

// The lines of a record: one for each of ten groups, and the words.
const LINES: u64 = 11;

// One row in each group, and one more in the last, in which words are compared.
fn record() -> Record {
    let mut record = Record::default();
    for group in [
        Group::Ticks,
        Group::Dumps,
        Group::Integrations,
        Group::Emissions,
        Group::Readings,
        Group::Forecasts,
        Group::Pages,
        Group::Picks,
        Group::Setups,
    ] {
        record.row(group, true, group == Group::Dumps);
    }
    record.memory(false, 250);
    record.memory(true, 84);
    record
}

// Each is written, and says what `stdout` has.
pub fn texts(rt: &impl Print) -> Tally {
    let mut t = Tally::default();
    t.note(line(rt, 6, "alone", &FIRST).is_ok());
    t.note(lines(rt, 4, &GROUPS).ok() == Some(BOTH));
    t.note(record().print(rt).is_ok());
    t.note(FIRST.verdict(rt).is_ok());
    t.note(println!(rt; "").is_ok());
    t.note(Tally::default().verdict(rt).is_ok());
    t
}

// An error is answered exactly where a line was not written, and no line is tried behind that one.
pub fn answers() -> Tally {
    let mut t = Tally::default();
    for room in 0..=LINES {
        let one = Output::of(room);
        t.row(one.is_told(line(&one, 6, "alone", &FIRST), 1), room < 1);
        let two = Output::of(room);
        t.row(two.is_told(lines(&two, 4, &GROUPS), 2), room < 2);
        let all = Output::of(room);
        t.row(all.is_told(record().print(&all), LINES), room < LINES);
        let good = Output::of(room);
        t.row(good.is_told(Tally::default().verdict(&good), 1), room < 1);
        let bad = Output::of(room);
        t.row(bad.is_told(FIRST.verdict(&bad), 1), room < 1);
    }
    t
}

// What drops a line that is not written tries each one behind it.
pub fn dropped() -> Tally {
    let mut t = Tally::default();
    for room in 0..=LINES {
        let out = Output::of(room);
        let mut total = FIRST;
        total.group(&out, 4, "second", SECOND);
        t.note(total == BOTH && out.came() == 1);
        record().show(&out);
        t.note(out.came() == 1 + LINES);
        FIRST.show_verdict(&out);
        t.note(out.came() == 2 + LINES);
    }
    t
}
