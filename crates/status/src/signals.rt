ghost use Rattle.std.specs.Prelude.{◌≡◌, [], ◌∷◌};
ghost use Rattle.std.specs.Result.{result_and};
ghost use Rattle.status.specs.SignalsFields.{fill_signals, judged_signals};

use crate::record::Status;
use fields::slot::{Slot, set_needed, set_optional};
use fields::value::{figure, pair};
use sources::fault::Fault;
use sources::number::Radix;

/// Slots of threads, signals and capabilities.
#[derive(Clone, Copy, Default)]
pub struct SignalsSlots {
    pub(crate) threads: Slot<u64>,
    pub(crate) sigq: Slot<(u64, u64)>,
    pub(crate) sigpnd: Slot<u64>,
    pub(crate) shdpnd: Slot<u64>,
    pub(crate) sigblk: Slot<u64>,
    pub(crate) sigign: Slot<u64>,
    pub(crate) sigcgt: Slot<u64>,
    pub(crate) capinh: Slot<u64>,
    pub(crate) capprm: Slot<u64>,
    pub(crate) capeff: Slot<u64>,
    pub(crate) capbnd: Slot<u64>,
    pub(crate) capamb: Slot<u64>,
}

impl SignalsSlots {
    // After a line that sets the field `number`.
    pub(crate) fn next(&mut self, number: u8, text: &str)
        ensures { self.new ≡ fill_signals ((number, text.now) ∷ []) self.old }
    {
        match number {
            39 => self.threads = Some(figure(text, Radix::Decimal)),
            40 => self.sigq = Some(pair(text)),
            41 => self.sigpnd = Some(figure(text, Radix::Hexadecimal)),
            42 => self.shdpnd = Some(figure(text, Radix::Hexadecimal)),
            43 => self.sigblk = Some(figure(text, Radix::Hexadecimal)),
            44 => self.sigign = Some(figure(text, Radix::Hexadecimal)),
            45 => self.sigcgt = Some(figure(text, Radix::Hexadecimal)),
            46 => self.capinh = Some(figure(text, Radix::Hexadecimal)),
            47 => self.capprm = Some(figure(text, Radix::Hexadecimal)),
            48 => self.capeff = Some(figure(text, Radix::Hexadecimal)),
            49 => self.capbnd = Some(figure(text, Radix::Hexadecimal)),
            50 => self.capamb = Some(figure(text, Radix::Hexadecimal)),
            _ => {}
        }
    }

    // Sets these fields of the record, or answers what is wrong with the first that is not as it must be.
    pub(crate) fn judge(&self, status: &mut Status) -> Result<(), Fault>
        ensures { result_and result (Ok status.new) ≡ judged_signals self.now status.old }
    {
        set_needed(39, &self.threads, &mut status.threads)?;
        set_needed(40, &self.sigq, &mut status.sigq)?;
        set_needed(41, &self.sigpnd, &mut status.sigpnd)?;
        set_needed(42, &self.shdpnd, &mut status.shdpnd)?;
        set_needed(43, &self.sigblk, &mut status.sigblk)?;
        set_needed(44, &self.sigign, &mut status.sigign)?;
        set_needed(45, &self.sigcgt, &mut status.sigcgt)?;
        set_needed(46, &self.capinh, &mut status.capinh)?;
        set_needed(47, &self.capprm, &mut status.capprm)?;
        set_needed(48, &self.capeff, &mut status.capeff)?;
        set_optional(49, &self.capbnd, &mut status.capbnd)?;
        set_optional(50, &self.capamb, &mut status.capamb)?;
        Ok(())
    }
}
