ghost use Rattle.std.specs.Prelude.{◌≡◌, [], ◌∷◌};
ghost use Rattle.std.specs.Result.{result_and};
ghost use Rattle.status.specs.OwnerFields.{fill_owner, judged_owner};

use crate::record::Status;
use fields::slot::{Slot, at_field, needed};
use fields::value::{Four, read_four};
use sources::fault::Fault;

/// Slots of the owner of a process.
#[derive(Clone, Copy, Default)]
pub struct OwnerSlots {
    pub(crate) uid: Slot<Four>,
    pub(crate) gid: Slot<Four>,
}

impl OwnerSlots {
    // After a line that sets the field `number`.
    pub(crate) fn next(&mut self, number: u8, text: &str)
        ensures { self.new ≡ fill_owner ((number, text.now) ∷ []) self.old }
    {
        match number {
            9 => self.uid = Some(Ok(read_four(text))),
            13 => self.gid = Some(Ok(read_four(text))),
            _ => {}
        }
    }

    // Sets these fields of the record (twice four lines, so that each says its number), or answers what is wrong with the first that is not as it must be.
    pub(crate) fn judge(&self, status: &mut Status) -> Result<(), Fault>
        ensures { result_and result (Ok status.new) ≡ judged_owner self.now status.old }
    {
        let uid = needed(9, self.uid)?;
        status.ruid = at_field(9, uid.real)?;
        status.euid = at_field(10, uid.effective)?;
        status.suid = at_field(11, uid.saved)?;
        status.fuid = at_field(12, uid.filesystem)?;
        let gid = needed(13, self.gid)?;
        status.rgid = at_field(13, gid.real)?;
        status.egid = at_field(14, gid.effective)?;
        status.sgid = at_field(15, gid.saved)?;
        status.fgid = at_field(16, gid.filesystem)?;
        Ok(())
    }
}
