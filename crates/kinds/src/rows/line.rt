ghost use Rattle.std.specs.Prelude.{◌≡◌};
ghost use Rattle.kinds.specs.Rows.Lines.{saying_of, row_line_of};

use crate::attribute::Attribute;
use crate::rows::entry::{Entry, key_of};
use crate::rows::flags::flags_of;
use crate::rows::row::Row;
use crate::sort::capital_first;
use sources::fault::Fault;
use sources::pieces::strip_prefix;

/// What an attribute's line says of its mapping.
#[derive(Clone, Copy)]
pub enum Saying {
    Nothing,
    Flags(u32),
    Value(Entry),
}

/// A line of smaps text, as rows take it: one that opens a mapping, or an attribute's. Each may be badly written.
#[derive(Clone, Copy)]
pub enum RowLine {
    Mapping(Result<Row, Fault>),
    Attribute(Result<Saying, Fault>),
}

#[tactic(auto, unfolding(crate::specs::Rows::Lines::saying_of))]
fn saying_of(line: &str) -> Result<Saying, Fault>
    ensures { result ≡ saying_of line.now }
{
    if strip_prefix(line, "VmFlags").is_some() {
        return Ok(Saying::Flags(flags_of(line)));
    }
    let Some(Attribute { key, amount }) = Attribute::from_line(line)? else {
        return Ok(Saying::Nothing);
    };
    Ok(Saying::Value(Entry {
        key: key_of(key)?,
        value: amount,
    }))
}

/// What a line of smaps text is that stands behind `before` bytes of it.
#[tactic(auto, unfolding(crate::specs::Rows::Lines::row_line_of))]
pub fn row_line_of(line: &str, before: usize) -> RowLine
    ensures { result ≡ row_line_of before line.now }
{
    if capital_first(line) {
        RowLine::Attribute(saying_of(line))
    } else {
        RowLine::Mapping(Row::from_line(line, before))
    }
}
