// Limits, a line each.
use crate::trouble::Trouble;
use cli::fields::LIMITS_FIELDS;
use kinds::limits_text::read_limits;
use limits::limit::{Limit, LimitValue};
use limits::record::Limits;
use sources::source::Source;
use std::alloc::Global;
use std::fmt;
use std::fmt::{Display, Formatter};

#[derive(Clone, Copy)]
struct Bound(LimitValue);

impl Display for Bound {
    fn fmt<W: fmt::Write>(&self, f: &mut Formatter<W>) -> fmt::Result {
        match self.0 {
            LimitValue::Unlimited => write!(f, "{:>20}", "unlimited"),
            LimitValue::Value(n) => write!(f, "{n:>20}"),
        }
    }
}

#[derive(Clone, Copy)]
struct Table<'a>(&'a Limits);

// The limits in the order of the fields.
fn in_order(limits: &Limits) -> [Limit; 16] {
    [
        limits.max_cpu_time,
        limits.max_file_size,
        limits.max_data_size,
        limits.max_stack_size,
        limits.max_core_file_size,
        limits.max_resident_set,
        limits.max_processes,
        limits.max_open_files,
        limits.max_locked_memory,
        limits.max_address_space,
        limits.max_file_locks,
        limits.max_pending_signals,
        limits.max_msgqueue_size,
        limits.max_nice_priority,
        limits.max_realtime_priority,
        limits.max_realtime_timeout,
    ]
}

impl Display for Table<'_> {
    fn fmt<W: fmt::Write>(&self, f: &mut Formatter<W>) -> fmt::Result {
        let limits = in_order(self.0);
        for (name, limit) in LIMITS_FIELDS.iter().zip(&limits) {
            let soft = Bound(limit.soft_limit);
            let hard = Bound(limit.hard_limit);
            write!(f, "{name:<21} {soft} {hard}\n")?;
        }
        Ok(())
    }
}

/// The limits of a source's text, a line each.
pub fn limits_text<'a, S: Source>(alloc: Global, source: &mut S) -> Result<String, Trouble<'a>> {
    let mut limits = Limits::blank();
    read_limits(source, &mut limits)?;
    Ok(format!(in alloc; "{}", Table(&limits))?)
}
