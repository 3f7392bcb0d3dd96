ghost use Rattle.std.specs.Prelude.{◌≡◌, refl};
ghost use Rattle.sources.specs.declared.kind.Break.TheVariants.{Refuses};
ghost use Rattle.kinds.specs.Rows.Accepted.{AcceptsReadable};
ghost use Rattle.kinds.specs.Rows.Blocks.{ToldByMappings};
ghost use Rattle.kinds.specs.Rows.Placed.{NamesAtPlaces};
ghost use Rattle.kinds.specs.Rows.Latest.{LatestOfMappings};
ghost use Rattle.kinds.specs.Rows.Tables.{Filled, filled, tables, valued, after_saying, after_row_line, row_rules, has_begun, is_foreign, refusal_stays, foreign_aside, begins_with_any, rows_of};

use crate::rows::entry::{Entry, spot};
use crate::rows::line::{RowLine, Saying, row_line_of};
use crate::rows::row::Row;
use crate::rows::table::{Lent, Table, blank};
use sources::drive::fill;
use sources::fault::{Fault, Refusal};
use sources::kind::{Break, Finish, Kind};
use sources::reason::Reason;
use sources::source::Source;

/// How many rows and entries were filled.
#[derive(Clone, Copy, PartialEq, Eq, Debug)]
pub struct Counts {
    pub rows: usize,
    pub entries: usize,
}

// A value for the last row, which is `row`: in the entry of its key, or in one more.
fn put_value<R: Lent<Row>, E: Lent<Entry>>(
    rows: &mut R,
    entries: &mut E,
    bytes: usize,
    row: Row,
    entry: Entry,
) -> Result<usize, Fault>
    ensures makes { filled (R.table rows.new) (E.table entries.new) result ≡ valued entry row (tables (R.table rows.old) (E.table entries.old) bytes) }
    ensures rows { R.same rows.old rows.new }
    ensures entries { E.same entries.old entries.new }
{
    if let Some(i) = spot(entries.in_use(), row.first, &entry.key) {
        entries.set(i, entry);
        return Ok(bytes);
    }
    entries.push(entry)?;
    let row = Row {
        count: entries.count().saturating_sub(row.first),
        ..row
    };
    let last = rows.count().saturating_sub(1);
    rows.set(last, row);
    Ok(bytes)
}

// What an attribute's line makes of the tables, whose last row is `row`.
fn take_saying<R: Lent<Row>, E: Lent<Entry>>(
    rows: &mut R,
    entries: &mut E,
    bytes: usize,
    row: Row,
    saying: Saying,
) -> Result<usize, Fault>
    ensures makes { filled (R.table rows.new) (E.table entries.new) result ≡ after_saying saying row (tables (R.table rows.old) (E.table entries.old) bytes) }
    ensures rows { R.same rows.old rows.new }
    ensures entries { E.same entries.old entries.new }
{
    match saying {
        Saying::Nothing => Ok(bytes),
        Saying::Flags(flags) => {
            let last = rows.count().saturating_sub(1);
            rows.set(last, Row { flags, ..row });
            Ok(bytes)
        }
        Saying::Value(entry) => put_value(rows, entries, bytes, row, entry),
    }
}

// What a line makes of the tables, behind which so many bytes of text are taken.
fn step<R: Lent<Row>, E: Lent<Entry>>(
    rows: &mut R,
    entries: &mut E,
    bytes: usize,
    line: RowLine,
) -> Result<usize, Fault>
    ensures makes { filled (R.table rows.new) (E.table entries.new) result ≡ after_row_line line (tables (R.table rows.old) (E.table entries.old) bytes) }
    ensures rows { R.same rows.old rows.new }
    ensures entries { E.same entries.old entries.new }
{
    match line {
        RowLine::Mapping(row) => {
            let row = Row {
                first: entries.count(),
                ..row?
            };
            rows.push(row)?;
            Ok(bytes)
        }
        RowLine::Attribute(saying) => {
            let row = rows.last().ok_or(Fault::new(Reason::Orphan))?;
            take_saying(rows, entries, bytes, row, saying?)
        }
    }
}

// The two tables as lines fill them, and how many bytes of text were taken, or the fault of a line that was refused.
#[derive(Drop)]
struct OpenTables<R, E> {
    rows: R,
    entries: E,
    state: Result<usize, Fault>,
}

impl<R: Lent<Row>, E: Lent<Entry>> Kind for OpenTables<R, E> {
    type Closed = Counts;

    const BREAK: Break = Break::Refuses;

    ghost BREAK = { Refuses };

    ghost Meaning = { Filled };

    ghost means = { λ s. filled (R.table s.rows) (E.table s.entries) s.state };

    ghost rules = { row_rules };

    ghost begun = { has_begun };

    ghost foreign = { is_foreign };

    ghost frame = { λ s t. R.same s.rows t.rows × E.same s.entries t.entries };

    fn take(&mut self, line: &str) -> Result<(), Fault> {
        let bytes = self.state?;
        let row_line = row_line_of(line, bytes);
        self.state = step(
            &mut self.rows,
            &mut self.entries,
            bytes.saturating_add(line.len()),
            row_line,
        );
        self.state.map(|_| ())
    }

    ghost breaks = { refl };

    ghost stays = { refusal_stays };

    ghost aside = { foreign_aside };

    ghost begins = { begins_with_any };

    ghost framed = { λ a. (R.itself a.rows, E.itself a.entries) };

    ghost still = { λ a b c p q. (R.still a.rows b.rows c.rows p.0 q.0, E.still a.entries b.entries c.entries p.1 q.1) };
}

impl<R: Lent<Row>, E: Lent<Entry>> Finish for OpenTables<R, E> {
    fn finish(&mut self) -> Result<Counts, Fault> {
        let _bytes = self.state?;
        Ok(Counts {
            rows: self.rows.count(),
            entries: self.entries.count(),
        })
    }
}

/// Reads the smaps text of a source into rows and entries, and answers how many of each. A refusal blanks all cells.
pub fn read_rows<S: Source>(
    source: &mut S,
    rows: &mut [Row],
    entries: &mut [Entry],
) -> Result<Counts, Refusal>
    ensures defined { (result, rows.new, entries.new, S.text source.new) ≡ rows_of rows.old entries.old (S.text source.old) }
    ensures mappings { ToldByMappings (S.text source.old) rows.old entries.old result rows.new entries.new }
    ensures names { NamesAtPlaces (S.text source.old) result rows.new }
    ensures latest { LatestOfMappings (S.text source.old) result rows.new entries.new }
    ensures accepts { AcceptsReadable (S.text source.old) rows.old entries.old result }
{
    let mut row_table = Table::new(rows);
    let mut entry_table = Table::new(entries);
    let mut open_tables = OpenTables {
        rows: &mut row_table,
        entries: &mut entry_table,
        state: Ok(0),
    };
    let read = fill(source, &mut open_tables);
    if read.is_err() {
        blank(rows, Row::blank());
        blank(entries, Entry::blank());
    }
    read
}
