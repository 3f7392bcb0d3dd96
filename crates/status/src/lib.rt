//! The record of a process's status: a slot for each field, and how lines fill them.
#![tactic(auto)]

mod ids;
mod line;
mod memory;
mod names;
mod others;
mod owner;
pub mod record;
mod signals;
mod spaces;
pub mod state;
