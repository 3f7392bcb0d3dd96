ghost use Rattle.std.specs.Prelude.{◌≡◌, [], ◌∷◌};
ghost use Rattle.std.specs.Result.{result_and};
ghost use Rattle.status.specs.MemoryFields.{fill_memory, judged_memory};

use crate::record::Status;
use fields::slot::{Slot, set_optional};
use fields::value::kilobytes;
use sources::fault::Fault;

/// Slots of figures of memory, in kB.
#[derive(Clone, Copy, Default)]
pub struct MemorySlots {
    pub(crate) vmpeak: Slot<u64>,
    pub(crate) vmsize: Slot<u64>,
    pub(crate) vmlck: Slot<u64>,
    pub(crate) vmpin: Slot<u64>,
    pub(crate) vmhwm: Slot<u64>,
    pub(crate) vmrss: Slot<u64>,
    pub(crate) rssanon: Slot<u64>,
    pub(crate) rssfile: Slot<u64>,
    pub(crate) rssshmem: Slot<u64>,
    pub(crate) vmdata: Slot<u64>,
    pub(crate) vmstk: Slot<u64>,
    pub(crate) vmexe: Slot<u64>,
    pub(crate) vmlib: Slot<u64>,
    pub(crate) vmpte: Slot<u64>,
    pub(crate) vmswap: Slot<u64>,
    pub(crate) hugetlbpages: Slot<u64>,
}

impl MemorySlots {
    // After a line that sets the field `number`.
    pub(crate) fn next(&mut self, number: u8, text: &str)
        ensures { self.new ≡ fill_memory ((number, text.now) ∷ []) self.old }
    {
        match number {
            23 => self.vmpeak = Some(kilobytes(text)),
            24 => self.vmsize = Some(kilobytes(text)),
            25 => self.vmlck = Some(kilobytes(text)),
            26 => self.vmpin = Some(kilobytes(text)),
            27 => self.vmhwm = Some(kilobytes(text)),
            28 => self.vmrss = Some(kilobytes(text)),
            29 => self.rssanon = Some(kilobytes(text)),
            30 => self.rssfile = Some(kilobytes(text)),
            31 => self.rssshmem = Some(kilobytes(text)),
            32 => self.vmdata = Some(kilobytes(text)),
            33 => self.vmstk = Some(kilobytes(text)),
            34 => self.vmexe = Some(kilobytes(text)),
            35 => self.vmlib = Some(kilobytes(text)),
            36 => self.vmpte = Some(kilobytes(text)),
            37 => self.vmswap = Some(kilobytes(text)),
            38 => self.hugetlbpages = Some(kilobytes(text)),
            _ => {}
        }
    }

    // Sets these fields of the record, or answers what is wrong with the first that is not as it must be.
    pub(crate) fn judge(&self, status: &mut Status) -> Result<(), Fault>
        ensures { result_and result (Ok status.new) ≡ judged_memory self.now status.old }
    {
        set_optional(23, &self.vmpeak, &mut status.vmpeak)?;
        set_optional(24, &self.vmsize, &mut status.vmsize)?;
        set_optional(25, &self.vmlck, &mut status.vmlck)?;
        set_optional(26, &self.vmpin, &mut status.vmpin)?;
        set_optional(27, &self.vmhwm, &mut status.vmhwm)?;
        set_optional(28, &self.vmrss, &mut status.vmrss)?;
        set_optional(29, &self.rssanon, &mut status.rssanon)?;
        set_optional(30, &self.rssfile, &mut status.rssfile)?;
        set_optional(31, &self.rssshmem, &mut status.rssshmem)?;
        set_optional(32, &self.vmdata, &mut status.vmdata)?;
        set_optional(33, &self.vmstk, &mut status.vmstk)?;
        set_optional(34, &self.vmexe, &mut status.vmexe)?;
        set_optional(35, &self.vmlib, &mut status.vmlib)?;
        set_optional(36, &self.vmpte, &mut status.vmpte)?;
        set_optional(37, &self.vmswap, &mut status.vmswap)?;
        set_optional(38, &self.hugetlbpages, &mut status.hugetlbpages)?;
        Ok(())
    }
}
