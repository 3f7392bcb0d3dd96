// The mappings of a process and their attributes, in two tables of the caller's.
pub mod entry;
pub mod flags;
mod line;
pub mod path;
pub mod read;
pub mod row;
mod table;
