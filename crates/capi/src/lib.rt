//! What C and Rust programs call.
//! Numbers, slices and structs of numbers cross alone. A list lies in the caller's memory, 64 cells; it is read and judged in each call, and written back where the call is accepted.
#![tactic(auto)]

ghost use Rattle.std.specs.Prelude.{◌≡◌, ℕ, Some, length};
ghost use Rattle.packing.specs.Calls.{new_list, admit_of, remeasure_of, note_of, bound_of, release_of};
ghost use Rattle.capi.specs.Cells.{closed_in, list_in};
ghost use Rattle.capi.specs.Parts.{join_of};
ghost use Rattle.capi.specs.Exports.{measure_in, new_in, used_in, admit_in, remeasure_in, note_in, bound_in, release_in, look_in, bare, without_text};
ghost use Rattle.capi.specs.Next.{HoldsNext, HoldsNextOfAny, HoldsNextWith};
ghost use Rattle.capi.specs.Words.{word_in, written};

mod answer;
mod cell;
mod held;
mod part;
mod texts;
mod word;

use answer::Answer;
use cell::{Cell, Measure};
use held::{ANY_LIMIT, leave, list_in};
use packing::list::ROOM;
use packing::place::Place;
use part::{PLAIN, join};
use sources::held::Held;
use word::word;

/// Measures smaps text.
#[tactic(auto, using(crate::proofs::TextCalls::alone))]
#[unsafe(no_mangle)]
pub extern "C" fn jomukahu_measure(
    first_form: u32,
    first: &[u8],
    second_form: u32,
    second: &[u8],
    figures: &mut Measure,
) -> Answer
    ensures { (result, figures.new) ≡ measure_in (join_of first_form first.now second_form second.now) }
{
    if first_form == PLAIN && second_form == PLAIN && second.is_empty() {
        // One text as it stands, as most come, is read faster by a source of it alone.
        return texts::measured(&mut Held::new(first), figures);
    }
    match join(first_form, first, second_form, second) {
        Ok(mut text) => texts::measured(&mut text, figures),
        Err(answer) => {
            *figures = Measure::zeros();
            answer
        }
    }
}

/// A list that no job is in.
#[tactic(auto, using(crate::proofs::Back::holds_none))]
#[unsafe(no_mangle)]
pub extern "C" fn jomukahu_new(places: &mut [Cell]) -> Answer
    ensures defined { (result, places.new) ≡ new_in places.old }
    ensures holds { length places.old ≡ 64 → (limit : ℕ) → list_in limit places.new ≡ Some (new_list limit) }
{
    if places.len() != ROOM {
        return Answer::wrong_use();
    }
    places.copy_from_slice(&[Cell::free(); ROOM]);
    Answer::accepted()
}

/// The sum of the charges.
#[unsafe(no_mangle)]
pub extern "C" fn jomukahu_used(places: &[Cell], used: &mut u64) -> Answer
    ensures { (result, used.new) ≡ used_in places.now }
{
    let Some(list) = list_in(ANY_LIMIT, places) else {
        *used = 0;
        return Answer::wrong_use();
    };
    *used = list.used();
    Answer::accepted()
}

/// Takes a job in, charged for a measure and its headroom.
#[unsafe(no_mangle)]
pub extern "C" fn jomukahu_admit(
    limit: u64,
    places: &mut [Cell],
    pid: i32,
    headroom: u64,
    figures: &Measure,
) -> Answer
    ensures defined { (result, places.new) ≡ admit_in limit pid headroom figures.now places.old }
    ensures holds { HoldsNext (λ l. bare (admit_of pid headroom (closed_in figures.now) l)) limit places.old places.new }
{
    let Some(mut list) = list_in(limit, places) else {
        return Answer::wrong_use();
    };
    let called = list.admit(pid, headroom, figures.closed());
    leave(called.map_err(|(refusal, _)| refusal), &list, places)
}

/// Charges a job anew.
#[unsafe(no_mangle)]
pub extern "C" fn jomukahu_remeasure(places: &mut [Cell], pid: i32, figures: &Measure) -> Answer
    ensures defined { (result, places.new) ≡ remeasure_in pid figures.now places.old }
    ensures holds { HoldsNextOfAny (λ l. bare (remeasure_of pid (closed_in figures.now) l)) places.old places.new }
{
    let Some(mut list) = list_in(ANY_LIMIT, places) else {
        return Answer::wrong_use();
    };
    let called = list.remeasure(pid, figures.closed());
    leave(called.map_err(|(refusal, _)| refusal), &list, places)
}

/// Keeps what a status text of a job tells.
#[unsafe(no_mangle)]
pub extern "C" fn jomukahu_note(
    places: &mut [Cell],
    pid: i32,
    first_form: u32,
    first: &[u8],
    second_form: u32,
    second: &[u8],
) -> Answer
    ensures defined { (result, places.new) ≡ note_in pid (join_of first_form first.now second_form second.now) places.old }
    ensures holds { HoldsNextWith (λ t l. without_text (note_of pid t l)) (join_of first_form first.now second_form second.now) places.old places.new }
{
    match join(first_form, first, second_form, second) {
        Ok(mut text) => texts::note(places, pid, &mut text),
        Err(answer) => answer,
    }
}

/// Keeps what a limits text of a job tells.
#[unsafe(no_mangle)]
pub extern "C" fn jomukahu_bound(
    places: &mut [Cell],
    pid: i32,
    first_form: u32,
    first: &[u8],
    second_form: u32,
    second: &[u8],
) -> Answer
    ensures defined { (result, places.new) ≡ bound_in pid (join_of first_form first.now second_form second.now) places.old }
    ensures holds { HoldsNextWith (λ t l. without_text (bound_of pid t l)) (join_of first_form first.now second_form second.now) places.old places.new }
{
    match join(first_form, first, second_form, second) {
        Ok(mut text) => texts::bound(places, pid, &mut text),
        Err(answer) => answer,
    }
}

/// Frees the place of a job.
#[unsafe(no_mangle)]
pub extern "C" fn jomukahu_release(places: &mut [Cell], pid: i32) -> Answer
    ensures defined { (result, places.new) ≡ release_in pid places.old }
    ensures holds { HoldsNextOfAny (release_of pid) places.old places.new }
{
    let Some(mut list) = list_in(ANY_LIMIT, places) else {
        return Answer::wrong_use();
    };
    let called = list.release(pid);
    leave(called, &list, places)
}

/// What is kept of a job, and what it is charged.
#[unsafe(no_mangle)]
pub extern "C" fn jomukahu_look(
    places: &[Cell],
    pid: i32,
    job: &mut Cell,
    charge: &mut u64,
) -> Answer
    ensures { (result, job.new, charge.new) ≡ look_in pid places.now }
{
    *job = Cell::free();
    *charge = 0;
    let Some(list) = list_in(ANY_LIMIT, places) else {
        return Answer::wrong_use();
    };
    match list.look(pid) {
        Ok(view) => {
            *job = Cell::of_job(&Place {
                pid,
                headroom: view.headroom,
                mappings: view.mappings,
                totals: view.totals,
                noted: view.noted,
                bounds: view.bounds,
            });
            *charge = view.charge;
            Answer::accepted()
        }
        Err(refusal) => Answer::of(refusal),
    }
}

/// Writes the word of a refusal's number, as much of it as there is room for, and tells how long it is: 0 for a number that is no refusal's.
#[unsafe(no_mangle)]
pub extern "C" fn jomukahu_word(number: u32, letters: &mut [u8]) -> usize
    ensures length { result ≡ length (word_in number) }
    ensures letters { letters.new ≡ written (word_in number) letters.old }
{
    let word = word(number).as_bytes();
    let n = word.len().min(letters.len());
    letters[..n].copy_from_slice(&word[..n]);
    word.len()
}
