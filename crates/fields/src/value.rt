ghost use Rattle.std.specs.Prelude.{◌≡◌, Some};
ghost use Rattle.std.specs.Option.{option_map};
ghost use Rattle.sources.specs.Faults.{as_fault};
ghost use Rattle.sources.specs.Pieces.{bytes_of};
ghost use Rattle.sources.specs.White.{white_words};
ghost use Rattle.fields.specs.Lists.{as_list, filled};
ghost use Rattle.fields.specs.Values.{comma_parts, kilobytes_of, needed_word, four_of, pair_of, groups_of, spaces_of, mask_of, ranges_of, flag_of};

use crate::counted::Counted;
use crate::item::{Group, Item, Process, Range, Word};
use crate::list::{ListFault, fill_list, put_list};
use crate::slot::Slot;
use sources::fault::Fault;
use sources::number::{FromStrRadix, Radix, split_into_num};
use sources::pieces::{Split, strip_suffix};
use sources::reason::Reason;

/// A number.
pub fn figure<T: FromStrRadix>(text: &str, radix: Radix) -> Result<T, Fault>
    ensures { result ≡ as_fault (T.FromStrRadix.reading radix text.now) }
{
    Ok(T::from_str_radix(text, radix)?)
}

/// A figure in kB, kept as it is.
pub fn kilobytes(text: &str) -> Result<u64, Fault>
    ensures { result ≡ kilobytes_of text.now }
{
    figure(strip_suffix(text, " kB").unwrap_or(text), Radix::Decimal)
}

/// The four numbers of a process's owner, or what is wrong with each.
#[derive(Clone, Copy)]
pub struct Four {
    pub real: Result<u32, Fault>,
    pub effective: Result<u32, Fault>,
    pub saved: Result<u32, Fault>,
    pub filesystem: Result<u32, Fault>,
}

// A word that has to be there.
fn read_word(word: Option<&str>) -> Result<u32, Fault>
    ensures { result ≡ needed_word (option_map bytes_of word.entry) }
{
    figure(word.ok_or(Fault::new(Reason::Short))?, Radix::Decimal)
}

/// The first four words, each judged by itself.
pub fn read_four(text: &str) -> Four
    ensures { result ≡ four_of text.now }
{
    let mut words = text.split_whitespace();
    let real = read_word(words.next());
    let effective = read_word(words.next());
    let saved = read_word(words.next());
    let filesystem = read_word(words.next());
    Four {
        real,
        effective,
        saved,
        filesystem,
    }
}

/// Two numbers with a slash between them.
pub fn pair(text: &str) -> Result<(u64, u64), Fault>
    ensures { result ≡ pair_of text.now }
{
    split_into_num(text, '/', Radix::Decimal)
}

// Puts a list of the items that the words of a text mean into a slot.
fn put_words<I: Item, const N: usize>(slot: &mut Slot<Counted<I::Value, N>>, text: &str)
    ensures { (blank : _) × I.Value.is_default blank × (slot.new ≡ Some (as_list (filled I.Item.reading blank N (white_words text.now)))) }
{
    put_list::<I, _, N>(slot, text.split_whitespace());
}

// Puts a list of the items between commas into a slot.
fn put_commas<I: Item, const N: usize>(slot: &mut Slot<Counted<I::Value, N>>, text: &str)
    ensures { (blank : _) × I.Value.is_default blank × (slot.new ≡ Some (as_list (filled I.Item.reading blank N (comma_parts text.now)))) }
{
    put_list::<I, _, N>(slot, Split::new(text, ','));
}

/// Puts the groups of a process into a slot.
pub fn put_groups(slot: &mut Slot<Counted<u32, 128>>, text: &str)
    ensures { slot.new ≡ Some (groups_of text.now) }
{
    put_words::<Group, 128>(slot, text);
}

/// Puts a process in each of its name spaces into a slot.
pub fn put_spaces(slot: &mut Slot<Counted<i32, 32>>, text: &str)
    ensures { slot.new ≡ Some (spaces_of text.now) }
{
    put_words::<Process, 32>(slot, text);
}

/// Puts the words of a mask into a slot.
pub fn put_mask(slot: &mut Slot<Counted<u32, 256>>, text: &str)
    ensures { slot.new ≡ Some (mask_of text.now) }
{
    put_commas::<Word, 256>(slot, text);
}

/// Puts ranges into a slot, where they stand. A bad range makes the list count as missing.
pub fn put_ranges(slot: &mut Slot<Option<Counted<(u32, u32), 128>>>, text: &str)
    ensures { slot.new ≡ Some (ranges_of text.now) }
{
    *slot = Some(Ok(Some(Counted::default())));
    if let Some(Ok(Some(list))) = slot {
        match fill_list::<Range, _, 128>(list, Split::new(text, ',')) {
            Ok(()) => {}
            Err(ListFault::Bad) => *slot = Some(Ok(None)),
            Err(ListFault::Full) => *slot = Some(Err(Fault::new(Reason::Full))),
        }
    }
}

/// Whether the value is 1.
pub fn flag(text: &str) -> bool
    ensures { result ≡ flag_of text.now }
{
    text == "1"
}
