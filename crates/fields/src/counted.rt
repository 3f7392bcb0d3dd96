ghost use Rattle.std.specs.Prelude.{◌≡◌, ◌≤◌, [], length, take, if◌then◌else◌, nat_lt, Some, Ok};
ghost use Rattle.fields.specs.Counted.{counted, with_item, kept_text};

use crate::list::ListFault;
use crate::slot::Slot;

// The first n items, or all.
fn front<T>(items: &[T], n: usize) -> &[T]
    ensures items { result.now ≡ take n items.now }
    ensures bound { length result.now ≤ n }
{
    items.get(..n).unwrap_or(items)
}

/// A list of at most N items: the first `len` cells count, and the others are blank. The libraries allocate nothing, so it is a table with a count, which is `Copy`, and no `Vec`.
/// No ghost field bounds `len`, since definitions make such lists too.
#[derive(Clone, Copy)]
pub struct Counted<T, const N: usize> {
    pub cells: [T; N],
    pub len: usize,
}

/// The bytes of a text, which fit where the line that it stands on does.
pub type Text = Counted<u8, 4096>;

// The empty list.
impl<T: Default + Copy, const N: usize> Default for Counted<T, N> {
    ghost is_default = { λ list. (blank : T) × T.is_default blank × (list ≡ counted N blank []) };

    fn default() -> Counted<T, N> {
        Counted {
            cells: [T::default(); N],
            len: 0,
        }
    }
}

impl<T: Copy, const N: usize> Counted<T, N> {
    /// The cells that count.
    pub fn items(&self) -> &[T]
        ensures { result.now ≡ take self.now.len self.now.cells }
    {
        front(&self.cells, self.len)
    }

    // Puts an item behind those in the list, where there is room.
    pub(crate) fn push(&mut self, item: T) -> Result<(), ListFault>
        ensures answer { result ≡ (if nat_lt self.old.len N then Ok tt else Err ListFault.Full) }
        ensures list { self.new ≡ (if nat_lt self.old.len N then with_item item self.old else self.old) }
    {
        if self.len >= N {
            return Err(ListFault::Full);
        }
        self.cells[self.len] = item;
        self.len += 1;
        Ok(())
    }
}

/// Puts the first 4096 bytes of a text into a slot, where they stand.
pub fn put_text(slot: &mut Slot<Text>, text: &str)
    ensures { slot.new ≡ Some (Ok (kept_text text.now)) }
{
    *slot = Some(Ok(Counted::default()));
    if let Some(Ok(list)) = slot {
        let kept = front(text.as_bytes(), 4096);
        list.cells[..kept.len()].copy_from_slice(kept);
        list.len = kept.len();
    }
}
