ghost use Rattle.std.specs.Prelude.{◌≡◌, ℕ, Bool, true, List, [], ◌∷◌, None, Ok, Option as OptionOf, Result as ResultOf};
ghost use Rattle.std.specs.Result.{result_and};
ghost use Rattle.sources.specs.declared.fault.Fault.{Fault as FaultOf};
ghost use Rattle.sources.specs.declared.kind.Break.{Break as BreakOf};
ghost use Rattle.fields.specs.Slots.{answered, kept, after_entry};

use sources::fault::Fault;
use sources::kind::Break;

/// The slots of a record, one for each of its fields: lines fill them, and closing judges them in the order of the fields.
pub trait Slots: Sized {
    type Record;

    // What a break means to the text.
    const BREAK: Break;

    ghost BREAK: { BreakOf };

    // What a line may say: a field, and what it is set to.
    ghost Entry: { Type 0 };

    // What a line says, if anything, or what is wrong with it.
    ghost entry: { List ℕ → ResultOf (OptionOf Entry) FaultOf };

    // The slots after entries, with the last first.
    ghost fill: { List Entry → Self → Self };

    // The record, or what is wrong with the first field that is not as it must be.
    ghost judged: { Self → ResultOf Self.Record FaultOf };

    // Which lines are foreign.
    ghost foreign: { List ℕ → Bool };

    // The slots before any line.
    ghost fresh: { Self };

    // What a record holds after a refusal.
    ghost blank: { Self.Record };

    fn new() -> Self
        ensures { result ≡ fresh };

    fn blank_record() -> Self::Record
        ensures { result ≡ blank };

    fn put_line(&mut self, line: &str) -> Result<(), Fault>
        ensures answer { result ≡ answered (after_entry fill self.old (entry line.now)) }
        ensures slots { self.new ≡ kept self.old (after_entry fill self.old (entry line.now)) };

    // Sets every field of the record, or answers what is wrong; the record is then as far as it was set.
    fn judge(&self, record: &mut Self::Record) -> Result<(), Fault>
        ensures { result_and result (Ok «record».new) ≡ judged self.now };

    // No entry leaves fresh slots fresh, and one more is put before the others.
    ghost none: { fill [] fresh ≡ fresh };

    ghost more: { (e : Entry) (es : List Entry) → fill (e ∷ []) (fill es fresh) ≡ fill (e ∷ es) fresh };

    // A foreign line says nothing.
    ghost aside: { (line : List ℕ) → foreign line ≡ true → entry line ≡ Ok None };
}
