// The list that the caller's cells hold.
ghost use Rattle.std.specs.Prelude.{◌≡◌, ℕ, IsOk, IsSome, Some, map, length};
ghost use Rattle.packing.specs.Packed.{packing};
ghost use Rattle.capi.specs.Cells.{place_in, cell_of, list_in};
ghost use Rattle.capi.specs.Exports.{left_by};

use crate::answer::Answer;
use crate::cell::Cell;
use packing::list::{PackingList, ROOM};
use packing::place::Place;
use sources::fault::Refusal;

/// No call but admit looks at the limit.
pub const ANY_LIMIT: u64 = 0;

fn places_in(cells: [Cell; ROOM]) -> [Option<Place>; ROOM]
    ensures { result ≡ map place_in cells }
{
    cells.map(|cell| cell.place())
}

fn cells_of(places: [Option<Place>; ROOM]) -> [Cell; ROOM]
    ensures { result ≡ map cell_of places }
{
    places.map(|place| Cell::of(&place))
}

/// The list of a limit that cells hold, if they hold one; that there are 64 then is said for callers, which write as many.
#[tactic(auto, unfolding(crate::specs::Cells::list_in))]
pub fn list_in(limit: u64, cells: &[Cell]) -> Option<PackingList>
    ensures list { result ≡ list_in limit cells.now }
    ensures whole { IsSome result → length cells.now ≡ 64 }
{
    let cells: [Cell; ROOM] = cells.try_into().ok()?;
    PackingList::restored(limit, places_in(cells))
}

/// What a call leaves in the cells: the list afterwards, where the call was accepted.
pub fn leave(called: Result<(), Refusal>, list: &PackingList, cells: &mut [Cell]) -> Answer
    requires { length cells.old ≡ 64 }
    ensures left { (result, cells.new) ≡ left_by (called, list.now) cells.old }
    ensures holds { IsOk called → (limit : ℕ) → list_in limit cells.new ≡ Some (packing limit list.now.places) }
{
    if let Err(refusal) = called {
        return Answer::of(refusal);
    }
    cells.copy_from_slice(&cells_of(*list.places()));
    Answer::accepted()
}
