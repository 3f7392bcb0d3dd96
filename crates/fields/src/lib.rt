//! How the text of a field is read: single figures, lists of items, and what a line leaves for the closing to judge.
#![tactic(auto)]

pub mod counted;
mod item;
mod list;
pub mod slot;
pub mod slots;
pub mod value;
