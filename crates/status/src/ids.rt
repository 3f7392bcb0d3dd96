ghost use Rattle.std.specs.Prelude.{◌≡◌, [], ◌∷◌};
ghost use Rattle.std.specs.Result.{result_and};
ghost use Rattle.status.specs.IdsFields.{fill_ids, judged_ids};

use crate::record::Status;
use fields::counted::{Text, put_text};
use fields::slot::{Slot, set_needed, set_optional};
use fields::value::figure;
use sources::fault::Fault;
use sources::number::Radix;

/// Slots of the name, the state and the numbers of a process.
#[derive(Clone, Copy, Default)]
pub struct IdsSlots {
    pub(crate) name: Slot<Text>,
    pub(crate) umask: Slot<u32>,
    pub(crate) state: Slot<Text>,
    pub(crate) tgid: Slot<i32>,
    pub(crate) ngid: Slot<i32>,
    pub(crate) pid: Slot<i32>,
    pub(crate) ppid: Slot<i32>,
    pub(crate) tracerpid: Slot<i32>,
}

impl IdsSlots {
    // After a line that sets the field `number`.
    pub(crate) fn next(&mut self, number: u8, text: &str)
        ensures { self.new ≡ fill_ids ((number, text.now) ∷ []) self.old }
    {
        match number {
            1 => put_text(&mut self.name, text),
            2 => self.umask = Some(figure(text, Radix::Octal)),
            3 => put_text(&mut self.state, text),
            4 => self.tgid = Some(figure(text, Radix::Decimal)),
            5 => self.ngid = Some(figure(text, Radix::Decimal)),
            6 => self.pid = Some(figure(text, Radix::Decimal)),
            7 => self.ppid = Some(figure(text, Radix::Decimal)),
            8 => self.tracerpid = Some(figure(text, Radix::Decimal)),
            _ => {}
        }
    }

    // Sets these fields of the record, or answers what is wrong with the first that is not as it must be.
    pub(crate) fn judge(&self, status: &mut Status) -> Result<(), Fault>
        ensures { result_and result (Ok status.new) ≡ judged_ids self.now status.old }
    {
        set_needed(1, &self.name, &mut status.name)?;
        set_optional(2, &self.umask, &mut status.umask)?;
        set_needed(3, &self.state, &mut status.state)?;
        set_needed(4, &self.tgid, &mut status.tgid)?;
        set_optional(5, &self.ngid, &mut status.ngid)?;
        set_needed(6, &self.pid, &mut status.pid)?;
        set_needed(7, &self.ppid, &mut status.ppid)?;
        set_needed(8, &self.tracerpid, &mut status.tracerpid)?;
        Ok(())
    }
}
