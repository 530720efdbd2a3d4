// Rows of the test of the calls on frames: damaged frames (damage), calls to which several refusals apply (order),
// frames written at the limits of each field (writer), and pseudo-random frames, whole and damaged (sweep).
#![tactic(auto)]

pub mod damage;
pub mod order;
pub mod sweep;
pub mod writer;
