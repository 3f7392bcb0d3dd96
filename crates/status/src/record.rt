ghost use Rattle.std.specs.Prelude.{◌≡◌, [], ◌∷◌, Ok, refl};
ghost use Rattle.std.specs.Result.{result_and};
ghost use Rattle.sources.specs.declared.kind.Break.TheVariants.{Refuses};
ghost use Rattle.fields.specs.Slots.{Entry as EntryOf};
ghost use Rattle.status.specs.Line.{entry_of, is_foreign};
ghost use Rattle.status.specs.LineLaws.{foreign_empty};
ghost use Rattle.status.specs.Record.{fill_slots, judged_into, judged_slots, fresh_slots, blank_status, SetsEveryField};

use crate::ids::IdsSlots;
use crate::line::entry;
use crate::memory::MemorySlots;
use crate::others::OthersSlots;
use crate::owner::OwnerSlots;
use crate::signals::SignalsSlots;
use crate::spaces::SpacesSlots;
use fields::counted::{Counted, Text};
use fields::slots::Slots;
use sources::fault::Fault;
use sources::kind::Break;

/// What /proc/PID/status says of a process, field by field; sizes are in kB. docs/STATUS.md has what each field is.
#[derive(Clone, Copy, Default)]
pub struct Status {
    pub name: Text,
    pub umask: Option<u32>,
    pub state: Text,
    pub tgid: i32,
    pub ngid: Option<i32>,
    pub pid: i32,
    pub ppid: i32,
    pub tracerpid: i32,
    pub ruid: u32,
    pub euid: u32,
    pub suid: u32,
    pub fuid: u32,
    pub rgid: u32,
    pub egid: u32,
    pub sgid: u32,
    pub fgid: u32,
    pub fdsize: u32,
    pub groups: Counted<u32, 128>,
    pub nstgid: Option<Counted<i32, 32>>,
    pub nspid: Option<Counted<i32, 32>>,
    pub nspgid: Option<Counted<i32, 32>>,
    pub nssid: Option<Counted<i32, 32>>,
    pub vmpeak: Option<u64>,
    pub vmsize: Option<u64>,
    pub vmlck: Option<u64>,
    pub vmpin: Option<u64>,
    pub vmhwm: Option<u64>,
    pub vmrss: Option<u64>,
    pub rssanon: Option<u64>,
    pub rssfile: Option<u64>,
    pub rssshmem: Option<u64>,
    pub vmdata: Option<u64>,
    pub vmstk: Option<u64>,
    pub vmexe: Option<u64>,
    pub vmlib: Option<u64>,
    pub vmpte: Option<u64>,
    pub vmswap: Option<u64>,
    pub hugetlbpages: Option<u64>,
    pub threads: u64,
    pub sigq: (u64, u64),
    pub sigpnd: u64,
    pub shdpnd: u64,
    pub sigblk: u64,
    pub sigign: u64,
    pub sigcgt: u64,
    pub capinh: u64,
    pub capprm: u64,
    pub capeff: u64,
    pub capbnd: Option<u64>,
    pub capamb: Option<u64>,
    pub nonewprivs: Option<u64>,
    pub seccomp: Option<u32>,
    pub speculation_store_bypass: Option<Text>,
    pub cpus_allowed: Option<Counted<u32, 256>>,
    pub cpus_allowed_list: Option<Counted<(u32, u32), 128>>,
    pub mems_allowed: Option<Counted<u32, 256>>,
    pub mems_allowed_list: Option<Counted<(u32, u32), 128>>,
    pub voluntary_ctxt_switches: Option<u64>,
    pub nonvoluntary_ctxt_switches: Option<u64>,
    pub core_dumping: Option<bool>,
    pub thp_enabled: Option<bool>,
}

/// A slot for each line's name, by topic; the topics are contiguous in the order of the fields.
/// The topics are alike, but their fields are of many types, and a slot that knew its own number would take as many lines a field.
#[derive(Clone, Copy, Default)]
pub struct StatusSlots {
    ids: IdsSlots,
    owner: OwnerSlots,
    spaces: SpacesSlots,
    memory: MemorySlots,
    signals: SignalsSlots,
    others: OthersSlots,
}

impl StatusSlots {
    // After a line that sets the field `number`. Each topic matches it against its own: slots of many types stand in no table of functions,
    // and a struct of number and text would put its name before the text in every arm.
    fn next(&mut self, number: u8, text: &str)
        ensures { self.new ≡ fill_slots ((number, text.now) ∷ []) self.old }
    {
        self.ids.next(number, text);
        self.owner.next(number, text);
        self.spaces.next(number, text);
        self.memory.next(number, text);
        self.signals.next(number, text);
        self.others.next(number, text);
    }

    // Sets the fields, topic by topic.
    fn judge_into(&self, status: &mut Status) -> Result<(), Fault>
        ensures { result_and result (Ok status.new) ≡ judged_into status.old self.now }
    {
        self.ids.judge(status)?;
        self.owner.judge(status)?;
        self.spaces.judge(status)?;
        self.memory.judge(status)?;
        self.signals.judge(status)?;
        self.others.judge(status)
    }
}

impl Slots for StatusSlots {
    type Record = Status;

    const BREAK: Break = Break::Refuses;

    ghost BREAK = { Refuses };

    ghost Entry = { EntryOf };

    ghost entry = { entry_of };

    ghost fill = { fill_slots };

    ghost judged = { judged_slots };

    ghost foreign = { is_foreign };

    ghost fresh = { fresh_slots };

    ghost blank = { blank_status };

    fn new() -> StatusSlots {
        StatusSlots::default()
    }

    fn blank_record() -> Status {
        Status::blank()
    }

    fn put_line(&mut self, line: &str) -> Result<(), Fault> {
        if let Some((number, value)) = entry(line)? {
            self.next(number, value);
        }
        Ok(())
    }

    // What the record held before does not matter, since every field is set.
    #[tactic(auto, using(crate::proofs::Every::sets_every_field))]
    fn judge(&self, record: &mut Status) -> Result<(), Fault> {
        self.judge_into(record)
    }

    ghost none = { refl };

    ghost more = { λ _ _. refl };

    ghost aside = { foreign_empty };
}

impl Status {
    /// What a record holds after a refusal: zeros, nothing where a field may be missing, and empty texts and lists.
    pub fn blank() -> Status
        ensures blank { result ≡ blank_status }
        ensures start { SetsEveryField }
    {
        Status::default()
    }
}
