//! Any row of calls on a packing list, in one call.
#![tactic(auto)]

pub mod call;
pub mod run;
mod run_state;
