//! The record of a process's limits: what a line sets, and how closing judges what the lines left.
#![tactic(auto)]

pub mod limit;
pub mod line;
mod names;
pub mod record;
pub mod samples;
pub mod slots;
mod words;
