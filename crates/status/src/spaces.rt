ghost use Rattle.std.specs.Prelude.{◌≡◌, [], ◌∷◌};
ghost use Rattle.std.specs.Result.{result_and};
ghost use Rattle.status.specs.SpacesFields.{fill_spaces, judged_spaces};

use crate::record::Status;
use fields::counted::Counted;
use fields::slot::{Slot, set_needed, set_optional};
use fields::value::{figure, put_groups, put_spaces};
use sources::fault::Fault;
use sources::number::Radix;

/// Slots of descriptors, groups and name spaces.
#[derive(Clone, Copy, Default)]
pub struct SpacesSlots {
    pub(crate) fdsize: Slot<u32>,
    pub(crate) groups: Slot<Counted<u32, 128>>,
    pub(crate) nstgid: Slot<Counted<i32, 32>>,
    pub(crate) nspid: Slot<Counted<i32, 32>>,
    pub(crate) nspgid: Slot<Counted<i32, 32>>,
    pub(crate) nssid: Slot<Counted<i32, 32>>,
}

impl SpacesSlots {
    // After a line that sets the field `number`.
    pub(crate) fn next(&mut self, number: u8, text: &str)
        ensures { self.new ≡ fill_spaces ((number, text.now) ∷ []) self.old }
    {
        match number {
            17 => self.fdsize = Some(figure(text, Radix::Decimal)),
            18 => put_groups(&mut self.groups, text),
            19 => put_spaces(&mut self.nstgid, text),
            20 => put_spaces(&mut self.nspid, text),
            21 => put_spaces(&mut self.nspgid, text),
            22 => put_spaces(&mut self.nssid, text),
            _ => {}
        }
    }

    // Sets these fields of the record, or answers what is wrong with the first that is not as it must be.
    pub(crate) fn judge(&self, status: &mut Status) -> Result<(), Fault>
        ensures { result_and result (Ok status.new) ≡ judged_spaces self.now status.old }
    {
        set_needed(17, &self.fdsize, &mut status.fdsize)?;
        set_needed(18, &self.groups, &mut status.groups)?;
        set_optional(19, &self.nstgid, &mut status.nstgid)?;
        set_optional(20, &self.nspid, &mut status.nspid)?;
        set_optional(21, &self.nspgid, &mut status.nspgid)?;
        set_optional(22, &self.nssid, &mut status.nssid)?;
        Ok(())
    }
}
