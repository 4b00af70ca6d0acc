// Timers on the lent state, as timer.rs: one queue by deadline.
#![tactic(auto)]

pub mod by_deadline;
