ghost use Rattle.std.specs.Prelude.{◌≡◌, [], ◌∷◌};
ghost use Rattle.std.specs.Result.{result_and};
ghost use Rattle.status.specs.OthersFields.{fill_others, judged_others};

use crate::record::Status;
use fields::counted::{Counted, Text, put_text};
use fields::slot::{Slot, set_lenient, set_optional};
use fields::value::{figure, flag, put_mask, put_ranges};
use sources::fault::Fault;
use sources::number::Radix;

/// Slots of privileges, processors, memory nodes, switches and flags.
#[derive(Clone, Copy, Default)]
pub struct OthersSlots {
    pub(crate) nonewprivs: Slot<u64>,
    pub(crate) seccomp: Slot<u32>,
    pub(crate) speculation_store_bypass: Slot<Text>,
    pub(crate) cpus_allowed: Slot<Counted<u32, 256>>,
    pub(crate) cpus_allowed_list: Slot<Option<Counted<(u32, u32), 128>>>,
    pub(crate) mems_allowed: Slot<Counted<u32, 256>>,
    pub(crate) mems_allowed_list: Slot<Option<Counted<(u32, u32), 128>>>,
    pub(crate) voluntary_ctxt_switches: Slot<u64>,
    pub(crate) nonvoluntary_ctxt_switches: Slot<u64>,
    pub(crate) core_dumping: Slot<bool>,
    pub(crate) thp_enabled: Slot<bool>,
}

impl OthersSlots {
    // After a line that sets the field `number`.
    pub(crate) fn next(&mut self, number: u8, text: &str)
        ensures { self.new ≡ fill_others ((number, text.now) ∷ []) self.old }
    {
        match number {
            51 => self.nonewprivs = Some(figure(text, Radix::Decimal)),
            52 => self.seccomp = Some(figure(text, Radix::Decimal)),
            53 => put_text(&mut self.speculation_store_bypass, text),
            54 => put_mask(&mut self.cpus_allowed, text),
            55 => put_ranges(&mut self.cpus_allowed_list, text),
            56 => put_mask(&mut self.mems_allowed, text),
            57 => put_ranges(&mut self.mems_allowed_list, text),
            58 => self.voluntary_ctxt_switches = Some(figure(text, Radix::Decimal)),
            59 => self.nonvoluntary_ctxt_switches = Some(figure(text, Radix::Decimal)),
            60 => self.core_dumping = Some(Ok(flag(text))),
            61 => self.thp_enabled = Some(Ok(flag(text))),
            _ => {}
        }
    }

    // Sets these fields of the record, or answers what is wrong with the first that is not as it must be.
    pub(crate) fn judge(&self, status: &mut Status) -> Result<(), Fault>
        ensures { result_and result (Ok status.new) ≡ judged_others self.now status.old }
    {
        set_optional(51, &self.nonewprivs, &mut status.nonewprivs)?;
        set_optional(52, &self.seccomp, &mut status.seccomp)?;
        set_optional(
            53,
            &self.speculation_store_bypass,
            &mut status.speculation_store_bypass,
        )?;
        set_optional(54, &self.cpus_allowed, &mut status.cpus_allowed)?;
        set_lenient(55, &self.cpus_allowed_list, &mut status.cpus_allowed_list)?;
        set_optional(56, &self.mems_allowed, &mut status.mems_allowed)?;
        set_lenient(57, &self.mems_allowed_list, &mut status.mems_allowed_list)?;
        set_optional(
            58,
            &self.voluntary_ctxt_switches,
            &mut status.voluntary_ctxt_switches,
        )?;
        set_optional(
            59,
            &self.nonvoluntary_ctxt_switches,
            &mut status.nonvoluntary_ctxt_switches,
        )?;
        set_optional(60, &self.core_dumping, &mut status.core_dumping)?;
        set_optional(61, &self.thp_enabled, &mut status.thp_enabled)?;
        Ok(())
    }
}
