// What a refusal says to people, beyond its own words.
ghost use Rattle.std.specs.Prelude.{◌≡◌, Some, map};
ghost use Rattle.std.specs.Option.{option_map};
ghost use Rattle.cli.specs.Refused.{field_at, name_of, named_text};
ghost use Rattle.sources.specs.Pieces.{bytes_of};

use sources::fault::Refusal;
use sources::reason::Reason;
use std::fmt;
use std::fmt::{Display, Formatter};

/// What a reason means.
pub fn meaning(reason: Reason) -> &'static str {
    match reason {
        Reason::Broken => "The text broke off before it was whole, or is not UTF-8.",
        Reason::LongLine => "A line, or the text of a system call, has more bytes than are read.",
        Reason::LongText => "The text has more than 268,435,456 bytes.",
        Reason::Orphan => "An attribute stands before any mapping.",
        Reason::Short => "A piece of the line or of the field is missing.",
        Reason::Figure => "A number can't be read, or doesn't fit.",
        Reason::Value => "The value of an attribute is no number of 64 bits.",
        Reason::Torn => "A path begins with `[stack:` and has no `]` at its end.",
        Reason::Scale => "The value of an attribute is too large to be told in bytes.",
        Reason::Heavy => "A total is too large.",
        Reason::Absent => "A field that is needed is missing.",
        Reason::Full => "A list or a table has no room for one more.",
        Reason::State => "The state stands for no state of a process.",
        Reason::Pid => "A pid is below 1, or the text is of another process.",
        Reason::Present => "The pid is in the list already.",
        Reason::Unknown => "The pid is not in the list.",
        Reason::Packed => "All places of the list are taken.",
        Reason::Over => "The limit of the list would be passed.",
        Reason::Sum => "The sum of the charges is too large.",
        Reason::Bracket => "The target has no type, or no inode in brackets.",
        Reason::Key => "The name of an attribute has more than 32 bytes.",
        Reason::Spool => "The file is no well-made recording.",
    }
}

/// A refusal of a text whose fields have these names, from number 1 on: `refused 11 absent line 51 field 39 (threads)`.
#[derive(Clone, Copy)]
pub struct Named<'a> {
    pub refusal: Refusal,
    pub fields: &'a [&'a str],
}

// The name of the field with this number.
fn field_at<'a>(fields: &[&'a str], number: u32) -> Option<&'a str>
    ensures { result ≡ field_at fields.now number }
{
    let index = (number as usize).checked_sub(1)?;
    fields.get(index).copied()
}

impl<'a> Named<'a> {
    // The name of the field that the refusal is of.
    fn field(&self) -> Option<&'a str>
        ensures { option_map bytes_of result ≡ name_of (map bytes_of self.now.fields.now) self.now.refusal.field }
    {
        field_at(self.fields, self.refusal.field)
    }
}

impl Display for Named<'_> {
    ghost output = { λ n. Some (named_text (map bytes_of n.fields.now) n.refusal) };

    fn fmt<W: fmt::Write>(&self, f: &mut Formatter<W>) -> fmt::Result {
        match self.field() {
            Some(name) => write!(f, "{} ({name})", self.refusal),
            None => write!(f, "{}", self.refusal),
        }
    }
}
