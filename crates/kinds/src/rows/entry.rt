ghost use Rattle.std.specs.Prelude.{◌≡◌, ◌<◌, length, IfSome};
ghost use Rattle.kinds.specs.Rows.Entries.{blank_entry, kept_key, entry_number, spot};

use fields::counted::Counted;
use sources::fault::Fault;
use sources::reason::Reason;

/// The bytes of an attribute's key, at most 32.
pub type Key = Counted<u8, 32>;

/// One attribute of a mapping.
#[derive(Clone, Copy)]
pub struct Entry {
    pub key: Key,
    pub value: u64,
}

impl Entry {
    /// An entry of zeros, as refusals leave all cells.
    pub fn blank() -> Entry
        ensures { result ≡ blank_entry }
    {
        Entry {
            key: Counted {
                cells: [0; 32],
                len: 0,
            },
            value: 0,
        }
    }
}

// A key, copied.
#[tactic(auto, unfolding(crate::specs::Rows::Entries::kept_key))]
pub(crate) fn key_of(word: &str) -> Result<Key, Fault>
    ensures { result ≡ kept_key word.now }
{
    if word.len() > 32 {
        return Err(Fault::new(Reason::Key));
    }
    let mut cells = [0; 32];
    cells[..word.len()].copy_from_slice(word.as_bytes());
    Ok(Counted {
        cells,
        len: word.len(),
    })
}

// Whether two keys have the same bytes.
fn same(a: &Key, b: &Key) -> bool
    ensures { result ≡ Rattle.kinds.specs.Rows.Entries.same a.now b.now }
{
    a.items() == b.items()
}

// Where a key stands among entries.
fn place_of(entries: &[Entry], key: &Key) -> Option<usize>
    ensures place { result ≡ entry_number key.now entries.now }
    ensures bound { IfSome result (λ i. i < length entries.now) }
{
    entries.iter().position(|entry| same(&entry.key, key))
}

// The same among those from the number `first` on.
#[tactic(auto, unfolding(crate::specs::Rows::Entries::spot))]
pub(crate) fn spot(entries: &[Entry], first: usize, key: &Key) -> Option<usize>
    ensures { result ≡ spot key.now first entries.now }
{
    let behind = place_of(entries.get(first..)?, key)?;
    Some(first + behind)
}
