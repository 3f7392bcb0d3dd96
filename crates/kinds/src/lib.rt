//! The kernel's texts, a kind each.
#![tactic(auto)]

pub mod attribute;
pub mod limits_text;
pub mod mapping;
pub mod measure;
pub mod open_record;
pub mod path;
pub mod perms;
pub mod rows;
pub mod samples;
pub mod sort;
pub mod status_text;
