ghost use Rattle.std.specs.Prelude.{◌≡◌};
ghost use Rattle.std.specs.Iterator.{YieldsFirstRef, item_count};
ghost use Rattle.std.specs.Option.{option_map};
ghost use Rattle.sources.specs.Pieces.{bracketed as bracketed_of, bytes_of, bytes_of_2, split, split_once as split_once_of, strip_prefix as strip_prefix_of, strip_suffix as strip_suffix_of, up_to as up_to_of};
ghost use Rattle.sources.specs.Split.{pieces_left};
ghost use Rattle.sources.specs.White.{trim as trim_of, trim_start as trim_start_of};

use crate::find::find;

// Methods of the library, and `up_to` over them, each under a contract that is an executable definition.

/// What stands before the first `at`, an ASCII character, and what stands after it.
pub fn split_once(text: &str, at: char) -> Option<(&str, &str)>
    ensures { option_map bytes_of_2 result ≡ split_once_of at text.now }
{
    if at >= '\u{80}' {
        return None;
    }
    // As an ASCII character it is one byte.
    let i = find(at as u8, text.as_bytes())?;
    Some((&text[..i], &text[i + 1..]))
}

/// The part before the first `at`, or all.
pub fn up_to(text: &str, at: char) -> &str
    ensures { result.now ≡ up_to_of at text.now }
{
    split_once(text, at).map_or(text, |(front, _)| front)
}

// The text without ASCII white space in front of it: values stand behind a tab and columns of spaces, which are passed byte by byte here.
fn past_columns(text: &str) -> &str
    ensures around { trim_of result.now ≡ trim_of text.now }
    ensures front { trim_start_of result.now ≡ trim_start_of text.now }
{
    text.trim_ascii_start()
}

/// The text without white space around it.
pub fn trimmed(text: &str) -> &str
    ensures { result.now ≡ trim_of text.now }
{
    past_columns(text).trim()
}

/// The text without white space in front of it.
pub fn trimmed_start(text: &str) -> &str
    ensures { result.now ≡ trim_start_of text.now }
{
    past_columns(text).trim_start()
}

/// What follows `front`, where the text begins with it.
pub fn strip_prefix<'a>(text: &'a str, front: &str) -> Option<&'a str>
    ensures { option_map bytes_of result ≡ strip_prefix_of front.now text.now }
{
    text.strip_prefix(front)
}

/// What stands before `end`, where the text ends with it.
pub fn strip_suffix<'a>(text: &'a str, end: &str) -> Option<&'a str>
    ensures { option_map bytes_of result ≡ strip_suffix_of end.now text.now }
{
    text.strip_suffix(end)
}

/// What stands between square brackets, where the text begins with the one and ends with the other.
pub fn bracketed(text: &str) -> Option<&str>
    ensures { option_map bytes_of result ≡ bracketed_of text.now }
{
    strip_suffix(strip_prefix(text, "[")?, "]")
}

/// The pieces of a text between one ASCII character and the next that is the same: one more than there are such
/// characters, so an empty text is one empty piece. A character that is not ASCII splits nothing.
#[derive(Drop)]
pub struct Split<'a> {
    // what follows the last character found; nothing behind the last piece
    rest: Option<&'a str>,
    at: char,
}

impl<'a> Split<'a> {
    /// All pieces of the text.
    pub fn new(text: &'a str, at: char) -> Split<'a>
        ensures { pieces_left result ≡ split at text.now }
    {
        Split {
            rest: Some(text),
            at,
        }
    }
}

impl<'a> Iterator for Split<'a> {
    type Item = &'a str;

    ghost next_gives = { YieldsFirstRef pieces_left };

    ghost remaining = { item_count pieces_left };

    // The piece before the next such character, or the last piece.
    fn next(&mut self) -> Option<&'a str> {
        let rest = self.rest?;
        match split_once(rest, self.at) {
            Some((piece, behind)) => {
                self.rest = Some(behind);
                Some(piece)
            }
            None => {
                self.rest = None;
                Some(rest)
            }
        }
    }
}
