ghost use Rattle.std.specs.Prelude.{◌≡◌, [], Ok, Some};
ghost use Rattle.std.specs.Result.{result_and};
ghost use Rattle.std.specs.Iterator.{IsFinite, AlwaysYields};
ghost use Rattle.sources.specs.Pieces.{bytes_of};
ghost use Rattle.fields.specs.Counted.{counted};
ghost use Rattle.fields.specs.Lists.{as_list, bad_for, filled, list_fault_for, IsFilled};
ghost use Rattle.fields.specs.Shown.{list_fault_text};

use crate::counted::Counted;
use crate::item::Item;
use crate::slot::Slot;
use sources::fault::{Fault, NumberFault};
use sources::reason::Reason;
use std::error::Error;
use std::fmt;
use std::fmt::{Display, Formatter};

/// What is wrong with a list: an item that can't be read, or one more than there is room for.
#[derive(Clone, Copy, PartialEq, Eq, Debug)]
pub enum ListFault {
    Bad,
    Full,
}

impl Display for ListFault {
    ghost output = { λ f. Some (list_fault_text f) };

    fn fmt<W: fmt::Write>(&self, f: &mut Formatter<W>) -> fmt::Result {
        match self {
            ListFault::Bad => f.write_str("an item can't be read"),
            ListFault::Full => f.write_str("no room for one more item"),
        }
    }
}

impl Error for ListFault {}

impl From<NumberFault> for ListFault {
    ghost from_gives = { λ f r. r ≡ bad_for f };

    fn from(_fault: NumberFault) -> ListFault {
        ListFault::Bad
    }
}

impl From<ListFault> for Fault {
    ghost from_gives = { λ f r. r ≡ list_fault_for f };

    fn from(fault: ListFault) -> Fault {
        match fault {
            ListFault::Bad => Fault::new(Reason::Figure),
            ListFault::Full => Fault::new(Reason::Full),
        }
    }
}

// Puts the items that pieces of a text mean into an empty list, at most N.
pub(crate) fn fill_list<'a, I: Item, P: Iterator<Item = &'a str> + Drop, const N: usize>(
    list: &mut Counted<I::Value, N>,
    pieces: P,
) -> Result<(), ListFault>
    requires can { P.can_next pieces }
    requires ends { IsFinite (P.remaining pieces) }
    requires empty { (blank : _) × I.Value.is_default blank × (list.old ≡ counted N blank []) }
    ensures { (texts : _) → AlwaysYields P.next_gives bytes_of pieces texts → IsFilled I.Value.is_default I.Item.reading N texts (result_and result (Ok list.new)) }
{
    for piece in pieces {
        list.push(I::read(piece)?)?;
    }
    Ok(())
}

// Puts a list of the items that pieces of a text mean into a slot, where it stands, or what is wrong with it.
pub(crate) fn put_list<'a, I: Item, P: Iterator<Item = &'a str> + Drop, const N: usize>(
    slot: &mut Slot<Counted<I::Value, N>>,
    pieces: P,
)
    requires can { P.can_next pieces }
    requires ends { IsFinite (P.remaining pieces) }
    ensures { (texts : _) → AlwaysYields P.next_gives bytes_of pieces texts → (blank : _) × I.Value.is_default blank × (slot.new ≡ Some (as_list (filled I.Item.reading blank N texts))) }
{
    *slot = Some(Ok(Counted::default()));
    if let Some(Ok(list)) = slot {
        if let Err(fault) = fill_list::<I, P, N>(list, pieces) {
            *slot = Some(Err(fault.into()));
        }
    }
}
