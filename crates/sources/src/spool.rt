ghost use Rattle.std.specs.Prelude.{◌≡◌, ◌+◌, ◌<◌, ℕ, min, Bool, true, false, List, [], ◌∷◌, length, Ok, Err, MatchOption, slice_index};
ghost use Rattle.sources.specs.declared.reason.Reason.TheVariants as reason;
ghost use Rattle.sources.specs.Faults.{refused};
ghost use Rattle.sources.specs.Given.{Given, ending as given_ending};
ghost use Rattle.sources.specs.Texts.{text};
ghost use Rattle.sources.specs.Records.{recorded, to_come, text_of_records, records_of, ending_of, Part};

use crate::fault::Refusal;
use crate::reason::Reason;
use crate::recording::{Record, records_in};
use crate::source::{Piece, Source, reach};

/// A recording: the records that are left, with `used` text bytes of the first of them given.
#[derive(Drop)]
pub struct Spool<'a> {
    records: &'a [Record],
    used: usize,
}

// How many text bytes a record has; that it is whole is said for callers, which see no length in its type.
fn size(one: &Record) -> usize
    ensures size { result ≡ min (slice_index one.now 0) 62 }
    ensures whole { length one.now ≡ 64 }
{
    usize::from(one[0]).min(62)
}

impl<'a> Spool<'a> {
    /// A source of the text that is recorded. Bytes that are no well-made recording, as docs/SOURCES.md has it, are refused 22.
    pub fn new(recording: &'a [u8]) -> Result<Spool<'a>, Refusal>
        ensures { elim result [ Ok s ↦ (recorded recording.now ≡ true) × (⟦<Spool<'a> as Source>⟧.text s ≡ text (text_of_records (records_of recording.now)) (ending_of (records_of recording.now))) | Err e ↦ (recorded recording.now ≡ false) × (e ≡ refused reason.Spool 0) ] }
    {
        let records = records_in(recording).ok_or(Refusal::new(Reason::Spool, 0))?;
        Ok(Spool { records, used: 0 })
    }

    // Goes to the record that has the next byte, if there is one. The last record stays, for the ending that it tells.
    fn advance(&mut self) -> Option<&'a Record>
        ensures same { to_come self.new.records.now self.new.used ≡ to_come self.old.records.now self.old.used }
        ensures keeps { ending_of self.new.records.now ≡ ending_of self.old.records.now }
        ensures more { MatchOption result (to_come self.new.records.now self.new.used ≡ []) (λ one. (self.new.used < min (slice_index one.now 0) 62) × ((others : List (List ℕ)) × (self.new.records.now ≡ one.now ∷ others))) }
    {
        while let Some((one, others)) = self.records.split_first() {
            if self.used < size(one) {
                return Some(one);
            }
            if others.is_empty() {
                return None;
            }
            self.records = others;
            self.used = 0;
        }
        None
    }

    // Moves bytes of one record to the front of `buf`: how many, if any byte is left.
    fn part(&mut self, buf: &mut [u8]) -> Option<usize>
        requires { 0 < length buf.old }
        ensures part { MatchOption result ((to_come self.old.records.now self.old.used ≡ []) × (buf.new ≡ buf.old) × (to_come self.new.records.now self.new.used ≡ [])) (λ k. Part buf.old (to_come self.old.records.now self.old.used) k buf.new (to_come self.new.records.now self.new.used)) }
        ensures keeps { ending_of self.new.records.now ≡ ending_of self.old.records.now }
    {
        let one = self.advance()?;
        let text = &one[2 + self.used..2 + size(one)];
        let k = reach(text, buf.len());
        buf[0..k].copy_from_slice(&text[0..k]);
        self.used += k;
        Some(k)
    }

    // What is told when no byte is left.
    fn ending(&self) -> Piece
        ensures { result ≡ given_ending (ending_of self.now.records.now) }
    {
        match self.records.split_last() {
            Some((end, _)) if end[1] == 2 => Piece::Broken,
            _ => Piece::Ended,
        }
    }
}

impl<'a> Source for Spool<'a> {
    ghost text = { λ s. text (to_come s.records.now s.used) (ending_of s.records.now) };

    fn piece(&mut self, buf: &mut [u8]) -> Piece {
        if buf.len() == 0 {
            return Piece::Bytes(0);
        }
        // Each part goes into the rest of one buffer, which no iterator could lend.
        let mut n = 0;
        while let Some(k) = self.part(&mut buf[n..]) {
            n += k;
            if n == buf.len() || buf[n - 1] == 10 {
                return Piece::Bytes(n);
            }
        }
        if n == 0 {
            return self.ending();
        }
        Piece::Bytes(n)
    }
}
