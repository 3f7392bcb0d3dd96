ghost use Rattle.std.specs.Prelude.{◌≡◌};
ghost use Rattle.status.specs.Line.{sheared as sheared_of, value_of, entry_of, seen_entry};

use crate::names::field_of;
use sources::fault::Fault;
use sources::pieces::{split_once, strip_suffix, trimmed, up_to};
use sources::reason::Reason;

// The line without its end.
fn sheared(line: &str) -> &str
    ensures { result.now ≡ sheared_of line.now }
{
    let Some(front) = strip_suffix(line, "\n") else {
        return line;
    };
    strip_suffix(front, "\r").unwrap_or(front)
}

// The value of a field, in what follows the first colon: the name of a process may have colons of its own.
fn value(number: u8, rest: &str) -> &str
    ensures { result.now ≡ value_of number rest.now }
{
    trimmed(if number == 1 { rest } else { up_to(rest, ':') })
}

// The number of the field that a line sets, and the value; nothing of a line that is empty or has another name.
pub(crate) fn entry(line: &str) -> Result<Option<(u8, &str)>, Fault>
    ensures { seen_entry result ≡ entry_of line.now }
{
    let text = sheared(line);
    if text.is_empty() {
        return Ok(None);
    }
    let (name, rest) = split_once(text, ':').ok_or(Fault::new(Reason::Short))?;
    Ok(field_of(name).map(|number| (number, value(number, rest))))
}
