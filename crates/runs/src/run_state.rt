ghost use Rattle.std.specs.Prelude.{◌≡◌, ◌<◌, None, slice_index_or, slice_set, vec_len};
ghost use Rattle.std.specs.Vec.{vec_capacity};
ghost use Rattle.kinds.specs.Measured.{measured};
ghost use Rattle.packing.specs.Calls.{admit_of, remeasure_of};
ghost use Rattle.runs.specs.declared.call.Call.TheVariants.{Admit, Remeasure};
ghost use Rattle.runs.specs.Room.{Grown};
ghost use Rattle.runs.specs.Run.{textual, done_or_refused, seen_or_refused, served, measure_on, handed_back};

use crate::call::{Answer, Call};
use kinds::measure::{Closed, measure};
use packing::list::PackingList;
use packing::place::View;
use sources::fault::Refusal;
use sources::source::Source;

// Where a run stands: its list, and of each Measure call the measure that it made, until that is charged.
#[derive(Drop)]
pub(crate) struct RunState {
    pub list: PackingList,
    pub measures: Vec<Option<Closed>>,
}

// What a call that takes no measure answers.
fn done_or_refused(r: Result<(), Refusal>) -> Answer
    ensures { result ≡ done_or_refused r }
{
    match r {
        Ok(()) => Answer::Done,
        Err(refusal) => Answer::Refused(refusal),
    }
}

fn seen_or_refused(r: Result<View, Refusal>) -> Answer
    ensures { result ≡ seen_or_refused r }
{
    match r {
        Ok(view) => Answer::Seen(view),
        Err(refusal) => Answer::Refused(refusal),
    }
}

impl RunState {
    // Measures a text, and keeps the measure.
    fn measure<S: Source>(&mut self, source: &mut S) -> Answer
        requires { vec_len self.old.measures < vec_capacity self.old.measures }
        ensures served { (result, (self.new.list, self.new.measures.items)) ≡ measure_on (self.old.list, self.old.measures.items) (measured (S.text source.old)) }
        ensures room { Grown 1 self.old.measures self.new.measures }
    {
        let (answer, kept) = match measure(source) {
            Ok(closed) => {
                let answer = Answer::Made {
                    mappings: closed.mappings(),
                    totals: closed.totals(),
                };
                (answer, Some(closed))
            }
            Err(refusal) => (Answer::Refused(refusal), None),
        };
        self.measures.push_reserved(kept);
        answer
    }
    // Takes the measure of a number, if there is one.
    fn take(&mut self, k: usize) -> Option<Closed>
        ensures answer { result ≡ slice_index_or self.old.measures.items k None }
        ensures measures { self.new.measures.items ≡ slice_set self.old.measures.items k None }
        ensures list { self.new.list ≡ self.old.list }
        ensures room { Grown 0 self.old.measures self.new.measures }
    {
        match self.measures.get_mut(k) {
            Some(kept) => kept.take(),
            None => None,
        }
    }

    // What a charge answers; a measure that is handed back is kept under its number again.
    fn hand_back(&mut self, k: usize, r: Result<(), (Refusal, Closed)>) -> Answer
        ensures served { (result, (self.new.list, self.new.measures.items)) ≡ handed_back k r (self.old.list, self.old.measures.items) }
        ensures room { Grown 0 self.old.measures self.new.measures }
    {
        match r {
            Ok(()) => Answer::Done,
            Err((refusal, closed)) => {
                let answer = Answer::Handed {
                    refusal,
                    mappings: closed.mappings(),
                    totals: closed.totals(),
                };
                if let Some(kept) = self.measures.get_mut(k) {
                    *kept = Some(closed);
                }
                answer
            }
        }
    }
    // Charges the measure of a number.
    fn admit(&mut self, pid: i32, headroom: u64, k: usize) -> Answer
        ensures served { (result, (self.new.list, self.new.measures.items)) ≡ served (self.old.list, self.old.measures.items) (Admit pid headroom k) }
        ensures room { Grown 0 self.old.measures self.new.measures }
    {
        match self.take(k) {
            None => Answer::Missing,
            Some(closed) => {
                let r = self.list.admit(pid, headroom, closed);
                self.hand_back(k, r)
            }
        }
    }

    fn remeasure(&mut self, pid: i32, k: usize) -> Answer
        ensures served { (result, (self.new.list, self.new.measures.items)) ≡ served (self.old.list, self.old.measures.items) (Remeasure pid k) }
        ensures room { Grown 0 self.old.measures self.new.measures }
    {
        match self.take(k) {
            None => Answer::Missing,
            Some(closed) => {
                let r = self.list.remeasure(pid, closed);
                self.hand_back(k, r)
            }
        }
    }

    // Serves a call.
    pub(crate) fn serve<S: Source + Drop>(&mut self, call: Call<S>) -> Answer
        requires { vec_len self.old.measures < vec_capacity self.old.measures }
        ensures served { (result, (self.new.list, self.new.measures.items)) ≡ served (self.old.list, self.old.measures.items) (textual S.text call) }
        ensures room { Grown 1 self.old.measures self.new.measures }
    {
        match call {
            Call::Measure { mut text } => self.measure(&mut text),
            Call::Admit {
                pid,
                headroom,
                measure,
            } => self.admit(pid, headroom, measure),
            Call::Remeasure { pid, measure } => self.remeasure(pid, measure),
            Call::Note { pid, mut text } => done_or_refused(self.list.note(pid, &mut text)),
            Call::Bound { pid, mut text } => done_or_refused(self.list.bound(pid, &mut text)),
            Call::Release { pid } => done_or_refused(self.list.release(pid)),
            Call::Look { pid } => seen_or_refused(self.list.look(pid)),
            Call::Used => Answer::Total(self.list.used()),
        }
    }
}
