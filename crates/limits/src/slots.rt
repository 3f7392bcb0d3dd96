ghost use Rattle.std.specs.Prelude.{◌≡◌, ◌+◌, ◌<◌, slice_index_or};
ghost use Rattle.fields.specs.Slots.{needed};
ghost use Rattle.sources.specs.declared.kind.Break.TheVariants.{Ends};
ghost use Rattle.limits.specs.Entries.{Entry as EntryOf, entry_of, is_foreign};
ghost use Rattle.limits.specs.LimitsLaws.{foreign_empty, no_entries, one_entry_more};
ghost use Rattle.limits.specs.Record.{fresh_slots, fill_limits, judged_limits, blank_limits};

use crate::limit::Limit;
use crate::line::LimitLine;
use crate::record::Limits;
use fields::slot::{Slot, needed};
use fields::slots::Slots;
use sources::fault::Fault;
use sources::kind::Break;

/// What the last line of each limit's name left, in the order of the fields.
#[derive(Clone, Copy)]
pub struct LimitsSlots {
    pub slots: [Slot<Limit>; 16],
}

impl LimitsSlots {
    // The limit at a place, judged under the number of its field.
    fn limit(&self, place: usize) -> Result<Limit, Fault>
        requires { place < 16 }
        ensures { result ≡ needed (place + 1) (slice_index_or self.now.slots place None) }
    {
        // The check shows that it fits.
        needed(place as u32 + 1, self.slots[place])
    }
}

impl Slots for LimitsSlots {
    type Record = Limits;

    const BREAK: Break = Break::Ends;

    ghost BREAK = { Ends };

    ghost Entry = { EntryOf };

    ghost entry = { entry_of };

    ghost fill = { fill_limits };

    ghost judged = { judged_limits };

    ghost foreign = { is_foreign };

    ghost fresh = { fresh_slots };

    ghost blank = { blank_limits };

    fn new() -> LimitsSlots {
        LimitsSlots { slots: [None; 16] }
    }

    fn blank_record() -> Limits {
        Limits::blank()
    }

    #[tactic(auto, using(crate::proofs::Entered::slot_set))]
    fn put_line(&mut self, line: &str) -> Result<(), Fault> {
        if let Some(s) = LimitLine::from_line(line)? {
            self.slots[s.place] = Some(Limit::from_pair(s.soft, s.hard));
        }
        Ok(())
    }

    fn judge(&self, record: &mut Limits) -> Result<(), Fault> {
        *record = Limits {
            max_cpu_time: self.limit(0)?,
            max_file_size: self.limit(1)?,
            max_data_size: self.limit(2)?,
            max_stack_size: self.limit(3)?,
            max_core_file_size: self.limit(4)?,
            max_resident_set: self.limit(5)?,
            max_processes: self.limit(6)?,
            max_open_files: self.limit(7)?,
            max_locked_memory: self.limit(8)?,
            max_address_space: self.limit(9)?,
            max_file_locks: self.limit(10)?,
            max_pending_signals: self.limit(11)?,
            max_msgqueue_size: self.limit(12)?,
            max_nice_priority: self.limit(13)?,
            max_realtime_priority: self.limit(14)?,
            max_realtime_timeout: self.limit(15)?,
        };
        Ok(())
    }

    ghost none = { no_entries };

    ghost more = { one_entry_more };

    ghost aside = { foreign_empty };
}
