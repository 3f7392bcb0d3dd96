//! Readers of a descriptor's target, of a process's system call and of a word of its page table.
#![tactic(auto)]

pub mod page;
pub mod samples;
pub mod syscall;
pub mod target;
