// The mappings of a process, a line each, and a line of totals.
use crate::trouble::Trouble;
use cli::escaped::EscapedBytes;
use kinds::perms::MMPermissions;
use kinds::rows::entry::Entry;
use kinds::rows::flags::VmFlags;
use kinds::rows::path::PathCell;
use kinds::rows::read::read_rows;
use kinds::rows::row::Row;
use sources::source::Source;
use std::alloc::Global;
use std::fmt;
use std::fmt::{Display, Formatter};

// How many flags a line has room for without moving the name.
const ROOM: usize = 10;

// The first n items, or all.
fn front<T>(items: &[T], n: usize) -> &[T] {
    items.get(..n).unwrap_or(items)
}

// So many items from a place on, or those that there are.
fn part<T>(items: &[T], first: usize, count: usize) -> &[T] {
    let behind = items.get(first..).unwrap_or(&[]);
    front(behind, count)
}

// A figure in kB, or in bytes where it is no whole number of kB; `-` where there is none.
#[derive(Clone, Copy)]
struct Figure(Option<u64>);

impl Display for Figure {
    fn fmt<W: fmt::Write>(&self, f: &mut Formatter<W>) -> fmt::Result {
        match self.0 {
            Some(bytes) if bytes % 1024 == 0 => write!(f, " {:>10}", bytes / 1024),
            Some(bytes) => write!(f, " {bytes:>8} B"),
            None => write!(f, " {:>10}", "-"),
        }
    }
}

#[derive(Clone, Copy)]
struct Perms(MMPermissions);

impl Display for Perms {
    fn fmt<W: fmt::Write>(&self, f: &mut Formatter<W>) -> fmt::Result {
        let bits = self.0.bits;
        for (bit, letter) in [
            (MMPermissions::READ, 'r'),
            (MMPermissions::WRITE, 'w'),
            (MMPermissions::EXECUTE, 'x'),
        ] {
            f.write_char(if bits & bit != 0 { letter } else { '-' })?;
        }
        f.write_char(if bits & MMPermissions::SHARED != 0 {
            's'
        } else if bits & MMPermissions::PRIVATE != 0 {
            'p'
        } else {
            '-'
        })
    }
}

// The flags that are set, each behind a space, in room for ten.
#[derive(Clone, Copy)]
struct Flags(u32);

impl Display for Flags {
    fn fmt<W: fmt::Write>(&self, f: &mut Formatter<W>) -> fmt::Result {
        for (bit, name) in VmFlags::NAMES {
            if self.0 & bit != 0 {
                write!(f, " {name}")?;
            }
        }
        let set = self.0.count_ones() as usize;
        for _ in set..ROOM {
            f.write_str("   ")?;
        }
        Ok(())
    }
}

// The name of a mapping, with the text that it stands in.
#[derive(Clone, Copy)]
struct Name<'a> {
    path: PathCell,
    text: &'a [u8],
}

impl<'a> Name<'a> {
    // The bytes at its place.
    fn bytes(&self) -> &'a [u8] {
        let place = self.path.place;
        part(self.text, place.offset, place.length)
    }
}

impl Display for Name<'_> {
    fn fmt<W: fmt::Write>(&self, f: &mut Formatter<W>) -> fmt::Result {
        let number = self.path.number;
        match self.path.kind {
            0 => write!(f, "{}", EscapedBytes(self.bytes())),
            1 => f.write_str("[heap]"),
            2 => f.write_str("[stack]"),
            3 => write!(f, "[stack:{number}]"),
            4 => f.write_str("[vdso]"),
            5 => f.write_str("[vvar]"),
            6 => f.write_str("[vsyscall]"),
            7 => f.write_str("[rollup]"),
            9 => write!(f, "/SYSV{:08x}", number.cast_unsigned() & 0xffff_ffff),
            10 => write!(f, "[{}]", EscapedBytes(self.bytes())),
            _ => f.write_str("-"),
        }
    }
}

// The three figures of a mapping or of all, in bytes.
#[derive(Clone, Copy)]
struct Sizes {
    rss: Option<u64>,
    pss: Option<u64>,
    swap_pss: Option<u64>,
}

impl Display for Sizes {
    fn fmt<W: fmt::Write>(&self, f: &mut Formatter<W>) -> fmt::Result {
        let Sizes { rss, pss, swap_pss } = *self;
        write!(f, "{}{}{}", Figure(rss), Figure(pss), Figure(swap_pss))
    }
}

// The value of a key among entries.
fn value(entries: &[Entry], key: &str) -> Option<u64> {
    for entry in entries {
        if entry.key.items() == key.as_bytes() {
            return Some(entry.value);
        }
    }
    None
}

// The entries of a row.
fn own<'a>(row: &Row, entries: &'a [Entry]) -> &'a [Entry] {
    part(entries, row.first, row.count)
}

fn sizes_of(row: &Row, entries: &[Entry]) -> Sizes {
    let own = own(row, entries);
    Sizes {
        rss: value(own, "Rss"),
        pss: value(own, "Pss"),
        swap_pss: value(own, "SwapPss"),
    }
}

// A total and one value more; none where it is past 64 bits.
fn plus(total: Option<u64>, value: Option<u64>) -> Option<u64> {
    total?.checked_add(value.unwrap_or(0))
}

// Rows with their entries, and the text that they are of.
#[derive(Clone, Copy)]
struct Table<'a, 'b, 'c> {
    rows: &'a [Row],
    entries: &'b [Entry],
    text: &'c [u8],
}

impl Display for Table<'_, '_, '_> {
    fn fmt<W: fmt::Write>(&self, f: &mut Formatter<W>) -> fmt::Result {
        let mut total = Sizes {
            rss: Some(0),
            pss: Some(0),
            swap_pss: Some(0),
        };
        put_head(f)?;
        for row in self.rows {
            let sizes = sizes_of(row, self.entries);
            put_row(f, row, sizes, self.text)?;
            total = Sizes {
                rss: plus(total.rss, sizes.rss),
                pss: plus(total.pss, sizes.pss),
                swap_pss: plus(total.swap_pss, sizes.swap_pss),
            };
        }
        write!(
            f,
            "{:>16} {:<16} {:<5}{total}\n",
            self.rows.len(),
            "mappings",
            ""
        )
    }
}

fn put_head<W: fmt::Write>(f: &mut Formatter<W>) -> fmt::Result {
    write!(f, "{:>16} {:<16} {:<5}", "from", "to", "perms")?;
    write!(f, " {:>10} {:>10} {:>10}", "Rss kB", "Pss kB", "SwapPss kB")?;
    write!(f, " {:<29} {}\n", "flags", "name")
}

fn put_row<W: fmt::Write>(
    f: &mut Formatter<W>,
    row: &Row,
    sizes: Sizes,
    text: &[u8],
) -> fmt::Result {
    let (from, to) = row.address;
    let path = row.path;
    write!(f, "{from:>16x}-{to:<16x} {} {sizes}", Perms(row.perms))?;
    write!(f, "{} {}\n", Flags(row.flags), Name { path, text })
}

/// The mappings of a source's text, a line each; `text` is that text.
pub fn rows_text<'a, S: Source>(
    alloc: Global,
    source: &mut S,
    text: &[u8],
) -> Result<String, Trouble<'a>> {
    let lines = text.split(|b| *b == b'\n').count();
    let mut rows = vec![in alloc; Row::blank(); lines]?;
    let mut entries = vec![in alloc; Entry::blank(); lines]?;
    let counts = read_rows(source, rows.as_mut_slice(), entries.as_mut_slice())?;
    let table = Table {
        rows: front(rows.as_slice(), counts.rows),
        entries: front(entries.as_slice(), counts.entries),
        text,
    };
    Ok(format!(in alloc; "{table}")?)
}
