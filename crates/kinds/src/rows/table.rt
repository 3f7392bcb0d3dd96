ghost use Rattle.std.specs.Prelude.{◌≡◌, List, length, replicate, refl};
ghost use Rattle.std.proofs.Common.{◌∙◌};
ghost use Rattle.std.specs.Result.{result_map_both};
ghost use Rattle.kinds.specs.Rows.Cells.{Cells, cells, used, last, pushed, written};

use sources::fault::Fault;
use sources::reason::Reason;

/// Cells of the caller's, of which the first `count` are in use: one table for rows and for entries.
#[derive(Drop)]
pub struct Table<'a, T> {
    cells: &'a mut [T],
    count: usize,
}

impl<'a, T: Copy> Table<'a, T> {
    /// A table that no cell of is in use.
    pub fn new(cells: &'a mut [T]) -> Table<'a, T>
        ensures same { result.cells.ghost_name ≡ cells.entry.ghost_name }
        ensures cells { result.cells.now ≡ cells.old }
        ensures unused { result.count ≡ 0 }
    {
        Table { cells, count: 0 }
    }
}

/// A table that is lent, as a bound. A kind has a constant, which can't be stated in an impl for a type that names a lifetime; so the tables come into it as type arguments.
pub trait Lent<T> {
    ghost table: { Self → Cells T };

    // The memory is the same.
    ghost same: { Self → Self → Type 0 };

    fn count(&self) -> usize
        ensures { result ≡ (table self.now).count };

    fn in_use(&self) -> &[T]
        ensures { result.now ≡ used (table self.now) };

    fn last(&self) -> Option<T>
        ensures { result ≡ last (used (table self.now)) };

    fn push(&mut self, item: T) -> Result<(), Fault>
        ensures pushes { result_map_both (λ _. table self.new) (λ f. f) result ≡ pushed item (table self.old) }
        ensures same { same self.old self.new };

    fn set(&mut self, i: usize, item: T)
        ensures writes { table self.new ≡ written i item (table self.old) }
        ensures same { same self.old self.new };

    ghost itself: { (a : Self) → same a a };

    ghost still: { (a b c : Self) → same a b → same b c → same a c };
}

impl<'a, T: Copy> Lent<T> for Table<'a, T> {
    ghost table = { λ s. cells s.cells.now s.count };

    ghost same = { λ s t. t.cells.ghost_name ≡ s.cells.ghost_name };

    fn count(&self) -> usize {
        self.count
    }

    // Those in use.
    fn in_use(&self) -> &[T] {
        self.cells.get(..self.count).unwrap_or(self.cells)
    }

    // The last of them.
    fn last(&self) -> Option<T> {
        self.in_use().last().copied()
    }

    // Takes one more cell in use, where there is one.
    fn push(&mut self, item: T) -> Result<(), Fault> {
        if self.count >= self.cells.len() {
            return Err(Fault::new(Reason::Full));
        }
        self.cells[self.count] = item;
        self.count += 1;
        Ok(())
    }

    // Writes a cell anew.
    fn set(&mut self, i: usize, item: T) {
        if i < self.cells.len() {
            self.cells[i] = item;
        }
    }

    ghost itself = { λ _. refl };

    ghost still = { λ _ _ _ p q. q ∙ p };
}

// What is lent may be lent on.
impl<'k, T, X: Lent<T>> Lent<T> for &'k mut X {
    ghost table = { λ s. X.table s.now };

    ghost same = { λ s t. (t.ghost_name ≡ s.ghost_name) × X.same s.now t.now };

    fn count(&self) -> usize {
        (**self).count()
    }

    fn in_use(&self) -> &[T] {
        (**self).in_use()
    }

    fn last(&self) -> Option<T> {
        (**self).last()
    }

    fn push(&mut self, item: T) -> Result<(), Fault> {
        (**self).push(item)
    }

    fn set(&mut self, i: usize, item: T) {
        (**self).set(i, item)
    }

    ghost itself = { λ s. (refl, X.itself s.now) };

    ghost still = { λ a b c p q. (q.0 ∙ p.0, X.still a.now b.now c.now p.1 q.1) };
}

/// Writes one item to all cells.
pub fn blank<T: Copy>(held: &mut [T], item: T)
    ensures { held.new ≡ replicate (length held.old) item }
{
    // A loop, and no `fill`: that clones, and a clone of any `T` may fail.
    for i in 0..held.len() {
        held[i] = item;
    }
}
