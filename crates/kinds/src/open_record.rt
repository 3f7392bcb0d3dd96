ghost use Rattle.std.specs.Prelude.{◌≡◌, ◌∷◌, [], Ok, refl, Result as ResultOf};
ghost use Rattle.std.specs.Result.{result_and, result_err};
ghost use Rattle.sources.specs.declared.fault.Fault.{Fault as FaultOf};
ghost use Rattle.sources.specs.Faults.{and_then};
ghost use Rattle.sources.specs.Lines.{reading};
ghost use Rattle.sources.specs.Rules.{verdict as verdict_of};
ghost use Rattle.fields.specs.LastLines.{into, ToldByLastLines, SameRecordInEditions};
ghost use Rattle.fields.specs.Slots.{after_entry};
ghost use Rattle.fields.specs.Slotted.{slot_rules, has_begun, refusal_stays, foreign_aside, begins_with_any};

use fields::slots::Slots;
use sources::drive::lines;
use sources::fault::{Fault, Refusal, at_line};
use sources::kind::{Break, Kind};
use sources::source::Source;

/// Slots that lines fill, or the fault of a line that was refused: the kind of every text of fields.
#[derive(Drop)]
pub struct OpenRecord<S> {
    state: Result<S, Fault>,
}

impl<S: Slots> OpenRecord<S> {
    /// A record that has taken no line yet.
    pub fn new(slots: S) -> OpenRecord<S>
        ensures { result.state ≡ Ok slots }
    {
        OpenRecord { state: Ok(slots) }
    }
}

impl<S: Slots + Drop> Kind for OpenRecord<S> {
    type Closed = S::Record;

    const BREAK: Break = S::BREAK;

    ghost BREAK = { S.BREAK };

    ghost Meaning = { ResultOf S FaultOf };

    ghost means = { λ t. t.state };

    ghost rules = { slot_rules S.entry S.fill S.judged S.BREAK };

    ghost begun = { has_begun };

    ghost foreign = { S.foreign };

    ghost frame = { λ _ _. Unit {0} };

    fn take(&mut self, line: &str) -> Result<(), Fault> {
        // A match, since `and_then` would borrow the line in a closure and say no more.
        let taken = match &mut self.state {
            Ok(slots) => slots.put_line(line),
            Err(f) => Err(*f),
        };
        if let Err(f) = taken {
            self.state = Err(f);
        }
        taken
    }

    ghost breaks = { refl };

    ghost stays = { refusal_stays S.entry S.fill S.judged S.BREAK };

    ghost aside = { foreign_aside S.entry S.fill S.judged S.BREAK S.foreign S.aside };

    ghost begins = { begins_with_any S.entry S.fill S.judged S.BREAK };

    ghost framed = { λ _. tt };

    ghost still = { λ _ _ _ _ _. tt };
}

impl<S: Slots + Drop> OpenRecord<S> {
    // Closes the slots into a record, and answers what is wrong, if anything is.
    // No `Finish`, which answers what it makes: a record of a status is large, and would be moved at each step to the caller.
    fn finish(&self, record: &mut S::Record) -> Result<(), Fault>
        ensures { result_and result (Ok «record».new) ≡ (slot_rules S.entry S.fill S.judged S.BREAK).closed self.now.state }
    {
        match &self.state {
            Ok(slots) => slots.judge(record),
            Err(f) => Err(*f),
        }
    }
}

// Reads the text of a source by slots into a record, which is as far as it was set where that is refused.
fn fill_record<T: Source, S: Slots + Drop>(
    source: &mut T,
    open_record: &mut OpenRecord<S>,
    record: &mut S::Record,
) -> Result<(), Refusal>
where
    S::Record: Drop,
    ensures { (result_and result (Ok «record».new), T.text source.new) ≡ reading (slot_rules S.entry S.fill S.judged S.BREAK) open_record.old.state (T.text source.old) }
{
    let taken = lines(source, open_record)?;
    at_line(open_record.finish(record), taken)
}

// Reads the text of a source by fresh slots into a record, which is blank after a refusal.
fn read_defined<T: Source, S: Slots + Drop>(
    source: &mut T,
    record: &mut S::Record,
) -> Result<(), Refusal>
where
    S::Record: Drop,
    ensures { (result, «record».new, T.text source.new) ≡ into S.blank (reading (slot_rules S.entry S.fill S.judged S.BREAK) (Ok S.fresh) (T.text source.old)) }
{
    let mut open_record = OpenRecord::new(S::new());
    if let Err(f) = fill_record(source, &mut open_record, record) {
        *record = S::blank_record();
        return Err(f);
    }
    Ok(())
}

/// The same, with what it comes to.
pub fn read_record<T: Source, S: Slots + Drop>(
    source: &mut T,
    record: &mut S::Record,
) -> Result<(), Refusal>
where
    S::Record: Drop,
    ensures defined { (result, «record».new, T.text source.new) ≡ into S.blank (reading (slot_rules S.entry S.fill S.judged S.BREAK) (Ok S.fresh) (T.text source.old)) }
    ensures lines { ToldByLastLines S.entry S.fill S.judged S.fresh S.blank S.BREAK (T.text source.old) result «record».new }
    ensures editions { SameRecordInEditions (slot_rules S.entry S.fill S.judged S.BREAK) has_begun S.foreign (Ok S.fresh) S.blank (T.text source.old) result «record».new }
{
    read_defined::<T, S>(source, record)
}
