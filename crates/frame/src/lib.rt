// The calls on frames: reader, lag part, writer from fields, normalised lag.
#![tactic(auto)]

pub use frame_normal::normalised_lag;
pub use frame_read::{lag_part, lag_span, read_frame};
pub use frame_write::write_frame;
