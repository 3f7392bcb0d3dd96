// The answer to an smaps text that is read as rows: `ok`, how many mappings there are, and each with its fields, the case of its path as number, its number, where its name stands, and its name, its flags, and its attributes in order; or `refused`.
use crate::quoted::Quoted;
use crate::text::Text;
use crate::{Answer, record_answer};
use kinds::rows::entry::Entry;
use kinds::rows::path::Place;
use kinds::rows::read::{Counts, read_rows};
use kinds::rows::row::Row;
use std::alloc::{AllocError, Global};
use std::fmt;
use std::fmt::{Display, Formatter};

// So many items from a number on, or none where there are fewer.
fn part<T>(items: &[T], first: usize, count: usize) -> &[T] {
    let behind = items.get(first..).unwrap_or(&[]);
    behind.get(..count).unwrap_or(&[])
}

#[derive(Clone, Copy)]
struct Attributes<'a>(&'a [Entry]);

impl Display for Attributes<'_> {
    fn fmt<W: fmt::Write>(&self, f: &mut Formatter<W>) -> fmt::Result {
        f.write_str("[")?;
        if let Some((first, others)) = self.0.split_first() {
            write!(f, "{}={}", Quoted(first.key.items()), first.value)?;
            for entry in others {
                write!(f, ",{}={}", Quoted(entry.key.items()), entry.value)?;
            }
        }
        f.write_str("]")
    }
}

// The rows in use, with the text and the entries that they point into.
#[derive(Clone, Copy)]
struct Rows<'a> {
    text: &'a [u8],
    rows: &'a [Row],
    entries: &'a [Entry],
}

impl Rows<'_> {
    fn put<W: fmt::Write>(&self, f: &mut Formatter<W>, row: &Row) -> fmt::Result {
        write!(f, " {}-{}", row.address.0, row.address.1)?;
        write!(f, " {} {}", row.perms.bits, row.offset)?;
        write!(f, " {}:{} {}", row.dev.0, row.dev.1, row.inode)?;
        write!(f, " {} {}", row.path.kind, row.path.number)?;
        let Place { offset, length } = row.path.place;
        write!(f, " {offset} {}", Quoted(part(self.text, offset, length)))?;
        let attributes = part(self.entries, row.first, row.count);
        write!(f, " {} {}", row.flags, Attributes(attributes))
    }
}

impl Display for Rows<'_> {
    fn fmt<W: fmt::Write>(&self, f: &mut Formatter<W>) -> fmt::Result {
        write!(f, " {}", self.rows.len())?;
        for row in self.rows {
            self.put(f, row)?;
        }
        Ok(())
    }
}

// The answer where there are tables of so many cells.
fn answer_in(heap: Global, text: &Text, rows: usize, entries: usize) -> Result<Answer, AllocError> {
    let mut rows = vec![in heap; Row::blank(); rows]?;
    let mut entries = vec![in heap; Entry::blank(); entries]?;
    let read = text.source().and_then(|mut source| read_rows(&mut source, &mut rows, &mut entries));
    let counts = read.unwrap_or(Counts {
        rows: 0,
        entries: 0,
    });
    let fields = Rows {
        text: text.bytes.as_slice(),
        rows: part(rows.as_slice(), 0, counts.rows),
        entries: part(entries.as_slice(), 0, counts.entries),
    };
    record_answer(heap, read.map(|_| ()), fields)
}

// With tables that no text of so many lines fills.
pub fn answer(heap: Global, text: &Text) -> Result<Answer, AllocError> {
    // A line is at most one row or one entry.
    let breaks = text.bytes.iter().filter(|b| **b == b'\n').count();
    let lines = breaks.saturating_add(1);
    answer_in(heap, text, lines, lines)
}

// With tables of few cells, which many texts fill.
pub fn narrow_answer(heap: Global, text: &Text) -> Result<Answer, AllocError> {
    answer_in(heap, text, 3, 12)
}
