//! Where bytes come from, how they become lines, and the numbers and pieces of text that readers of lines share.
#![tactic(auto)]

mod chars;
pub mod drive;
pub mod fault;
mod find;
pub mod held;
pub mod input;
pub mod join;
pub mod kind;
pub mod number;
pub mod pieces;
pub mod reason;
mod recording;
pub mod source;
pub mod spool;
pub mod text;
pub mod words;
