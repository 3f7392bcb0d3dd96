ghost use Rattle.std.specs.Prelude.{◌≡◌};
ghost use Rattle.kinds.specs.Sorts.{sort_of, setting_of, measured_key, capital};

use crate::attribute::Attribute;
use crate::mapping::MemoryMap;
use sources::fault::Fault;
use sources::pieces::strip_prefix;

/// The keys that are measured.
#[derive(Clone, Copy)]
pub enum Key {
    Rss,
    Pss,
    SwapPss,
}

/// A measured key, and the amount that a line gives it.
#[derive(Clone, Copy)]
pub struct Setting {
    pub key: Key,
    pub amount: u64,
}

/// The sorts of line: one that opens a mapping, and an attribute's, which sets one of the keys or none. Each may be badly written.
#[derive(Clone, Copy)]
pub enum Sort {
    Mapping(Result<(), Fault>),
    Attribute(Result<Option<Setting>, Fault>),
}

// The measured key of a name. Another name is no error, so this is no TryFrom.
fn key_of(name: &str) -> Option<Key>
    ensures { result ≡ measured_key name.now }
{
    match name {
        "Rss" => Some(Key::Rss),
        "Pss" => Some(Key::Pss),
        "SwapPss" => Some(Key::SwapPss),
        _ => None,
    }
}

// What an attribute line sets. A line of flags sets no key, and is not read further.
// A match, and no `?` or `map`: what these make in between is written to memory and read again, of each line.
fn setting_of(line: &str) -> Result<Option<Setting>, Fault>
    ensures { result ≡ setting_of line.now }
{
    if strip_prefix(line, "VmFlags").is_some() {
        return Ok(None);
    }
    match Attribute::from_line(line) {
        Ok(Some(Attribute { key, amount })) => match key_of(key) {
            Some(key) => Ok(Some(Setting { key, amount })),
            None => Ok(None),
        },
        Ok(None) => Ok(None),
        Err(f) => Err(f),
    }
}

// Whether the first byte is one of A to Z.
pub(crate) fn capital_first(line: &str) -> bool
    ensures { result ≡ capital line.now }
{
    line.as_bytes().first().is_some_and(u8::is_ascii_uppercase)
}

/// The sort of a line of smaps text.
pub fn sort_of(line: &str) -> Sort
    ensures { result ≡ sort_of line.now }
{
    if capital_first(line) {
        Sort::Attribute(setting_of(line))
    } else {
        Sort::Mapping(MemoryMap::from_line(line).map(|_| ()))
    }
}
