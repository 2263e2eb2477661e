// From the readings of the line meter to speeds: of a single reading, and of a log of them.
#![tactic(auto, unfolding(crate::specs::Speed::metered))]

pub mod log;
pub mod reading;
