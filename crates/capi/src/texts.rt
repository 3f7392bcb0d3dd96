// Calls that read a text, two of them on the list that the caller's cells hold. Exports take no source, so they make one and call these.
ghost use Rattle.std.specs.Prelude.{◌≡◌};
ghost use Rattle.kinds.specs.Measured.{measured};
ghost use Rattle.packing.specs.Calls.{note_of, bound_of};
ghost use Rattle.capi.specs.Exports.{figures_or_zeros, note_on, bound_on, without_text};
ghost use Rattle.capi.specs.Next.{HoldsNextOfAny};

use crate::answer::Answer;
use crate::cell::{Cell, Measure};
use crate::held::{ANY_LIMIT, leave, list_in};
use kinds::measure::measure;
use sources::source::Source;

/// Measures a text, and writes its figures or zeros.
pub fn measured<S: Source>(text: &mut S, figures: &mut Measure) -> Answer
    ensures { (result, figures.new) ≡ figures_or_zeros (measured (S.text text.old)) }
{
    match measure(text) {
        Ok(closed) => {
            *figures = Measure::of(&closed);
            Answer::accepted()
        }
        Err(refusal) => {
            *figures = Measure::zeros();
            Answer::of(refusal)
        }
    }
}

/// Notes the status text of a job on the list that cells hold.
pub fn note<S: Source>(cells: &mut [Cell], pid: i32, text: &mut S) -> Answer
    ensures defined { (result, cells.new) ≡ note_on pid (S.text text.old) cells.old }
    ensures holds { HoldsNextOfAny (λ l. without_text (note_of pid (S.text text.old) l)) cells.old cells.new }
{
    let Some(mut list) = list_in(ANY_LIMIT, cells) else {
        return Answer::wrong_use();
    };
    let called = list.note(pid, text);
    leave(called, &list, cells)
}

/// Keeps the limits text of a job on the list that cells hold.
pub fn bound<S: Source>(cells: &mut [Cell], pid: i32, text: &mut S) -> Answer
    ensures defined { (result, cells.new) ≡ bound_on pid (S.text text.old) cells.old }
    ensures holds { HoldsNextOfAny (λ l. without_text (bound_of pid (S.text text.old) l)) cells.old cells.new }
{
    let Some(mut list) = list_in(ANY_LIMIT, cells) else {
        return Answer::wrong_use();
    };
    let called = list.bound(pid, text);
    leave(called, &list, cells)
}
