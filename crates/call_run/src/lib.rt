// What the calls on a run share: the run as a value, behind the first tests.
#![tactic(auto)]

mod run;

pub use run::Run;
