//! What the programs share: arguments, the files of texts, and how refusals, sizes and texts are printed.
#![tactic(auto)]

pub mod arguments;
pub mod escaped;
pub mod failure;
pub mod fields;
pub mod pulled;
pub mod refused;
pub mod sign;
pub mod size;
pub mod text_file;
pub mod width;
