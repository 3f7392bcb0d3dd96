ghost use Rattle.std.specs.Prelude.{◌≡◌, ◌≤◌, ◌↔◌, Some, IsOk, IfOk, map, vec_len};
ghost use Rattle.runs.specs.Room.{no_room_text};
ghost use Rattle.runs.specs.Run.{textual, answers_of};
ghost use Rattle.runs.specs.Ledger.{SumsHold};
ghost use Rattle.runs.specs.Newer.{SameInEditions};
ghost use Rattle.runs.specs.Joins.{JoinsAdd};

use crate::call::{Answer, Call};
use crate::run_state::RunState;
use kinds::measure::Closed;
use packing::list::PackingList;
use sources::source::Source;
use std::alloc::{AllocError, Global};
use std::error::Error;
use std::fmt;
use std::marker::Model;

/// The memory of a run: for its answers, and for its measures. It is for so many calls.
#[derive(Drop)]
pub struct Memory {
    answers: Vec<Answer>,
    measures: Vec<Option<Closed>>,
}

impl Model for Memory {
    ghost use Rattle.std.specs.Prelude.{◌≡◌, ℕ, [], vec_len};
    ghost use Rattle.std.specs.Vec.{vec_capacity};

    ghost Value = { ℕ };

    ghost view = { λ m. vec_capacity m.answers };

    ghost invariant = { λ m. (m.answers.items ≡ []) × (vec_len m.answers ≡ 0) × (m.measures.items ≡ []) × (vec_len m.measures ≡ 0) × (vec_capacity m.measures ≡ vec_capacity m.answers) };
}

impl Memory {
    /// Memory for no call at all never lacks.
    pub fn new(alloc: Global, calls: usize) -> Result<Memory, AllocError>
        ensures room { IfOk result (λ m. m ≡ calls) }
        ensures none { calls ≡ 0 → IsOk result }
    {
        Ok(Memory {
            answers: Vec::with_capacity(alloc, calls)?,
            measures: Vec::with_capacity(alloc, calls)?,
        })
    }
}

/// A row of more calls than its memory is for.
#[derive(Clone, Copy, PartialEq, Eq, Debug)]
pub struct NoRoom;

impl fmt::Display for NoRoom {
    ghost output = { λ _. Some no_room_text };

    fn fmt<W: fmt::Write>(&self, f: &mut fmt::Formatter<W>) -> fmt::Result {
        f.write_str("more calls than the memory is for")
    }
}

impl Error for NoRoom {}

/// Runs a row of calls on a list that is just made: what each answers. A row that has no room in the memory is not begun.
pub fn run<S: Source + Drop>(
    limit: u64,
    calls: Vec<Call<S>>,
    memory: Memory,
) -> Result<Vec<Answer>, NoRoom>
    ensures room { IsOk result ↔ (vec_len calls ≤ memory) }
    ensures defined { IfOk result (λ v. v.items ≡ answers_of limit (map (textual S.text) calls.items)) }
    ensures sums { IfOk result (λ v. SumsHold limit (map (textual S.text) calls.items) v.items) }
    ensures editions { IfOk result (λ v. SameInEditions limit (map (textual S.text) calls.items) v.items) }
    ensures joins { IfOk result (λ v. JoinsAdd (map (textual S.text) calls.items) v.items) }
{
    let Memory { answers, measures } = memory;
    let mut answers = answers;
    if calls.len() > answers.capacity() {
        return Err(NoRoom);
    }
    let mut state = RunState {
        list: PackingList::new(limit),
        measures,
    };
    for call in calls {
        answers.push_reserved(state.serve(call));
    }
    Ok(answers)
}
