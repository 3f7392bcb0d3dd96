// The answer to a limits text: `ok` and the 16 limits in order, each as `SOFT:HARD`, or `refused`.
use crate::text::Text;
use crate::{Answer, record_answer};
use kinds::limits_text::read_limits;
use limits::limit::LimitValue;
use limits::record::Limits;
use std::alloc::{AllocError, Global};
use std::fmt;
use std::fmt::{Display, Formatter};

// A bound, or `unlimited`.
#[derive(Clone, Copy)]
struct Bound(LimitValue);

impl Display for Bound {
    fn fmt<W: fmt::Write>(&self, f: &mut Formatter<W>) -> fmt::Result {
        match self.0 {
            LimitValue::Unlimited => f.write_str("unlimited"),
            LimitValue::Value(n) => write!(f, "{n}"),
        }
    }
}

// The fields of a record in order, each after a space.
#[derive(Clone, Copy)]
struct Fields<'a>(&'a Limits);

impl Display for Fields<'_> {
    fn fmt<W: fmt::Write>(&self, f: &mut Formatter<W>) -> fmt::Result {
        let l = self.0;
        for limit in [
            l.max_cpu_time,
            l.max_file_size,
            l.max_data_size,
            l.max_stack_size,
            l.max_core_file_size,
            l.max_resident_set,
            l.max_processes,
            l.max_open_files,
            l.max_locked_memory,
            l.max_address_space,
            l.max_file_locks,
            l.max_pending_signals,
            l.max_msgqueue_size,
            l.max_nice_priority,
            l.max_realtime_priority,
            l.max_realtime_timeout,
        ] {
            write!(
                f,
                " {}:{}",
                Bound(limit.soft_limit),
                Bound(limit.hard_limit)
            )?;
        }
        Ok(())
    }
}

pub fn answer(heap: Global, text: &Text) -> Result<Answer, AllocError> {
    let mut record = Limits::blank();
    let read = text
        .source()
        .and_then(|mut source| read_limits(&mut source, &mut record));
    record_answer(heap, read, Fields(&record))
}
