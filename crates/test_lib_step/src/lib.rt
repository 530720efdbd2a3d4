// One call of a list: its answer and what it wrote are held to the plain machine, which then takes the call itself
// (step). And work memory behind some calls, each word of it. The rows are counted by groups (record).
#![tactic(auto)]

pub mod record;
pub mod step;
