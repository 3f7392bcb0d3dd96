ghost use Rattle.std.specs.Prelude.{◌≡◌, ◌<◌};

use crate::names::{named, place_of};
use crate::words::{count_words, word_at, words_behind};
use sources::fault::Fault;
use sources::pieces::{strip_prefix, trimmed};
use sources::reason::Reason;

/// What a line says of a limit: the place of its field, from 0 on, and the words of the soft limit and the hard one.
#[derive(Clone, Copy)]
pub struct LimitLine<'a> {
    pub place: usize,
    pub soft: &'a str,
    pub hard: &'a str,
    ghost in_range: { place < 16 },
}

impl<'a> LimitLine<'a> {
    ghost use Rattle.std.specs.Prelude.{IfSome, Ok, Some};
    ghost use Rattle.limits.specs.Entries.{entry_of, seen_entry, told_entry, trimmed_entry};

    // What a trimmed line says, if it begins with a name that is written as the kernel writes it, and has the words that belong behind it: these are looked at once.
    fn plain(text: &'a str) -> Option<LimitLine<'a>>
        ensures { IfSome result (λ s. trimmed_entry text.now ≡ Ok (Some (told_entry s))) }
    {
        let (place, rest) = named(text)?;
        let mut words = rest.split_whitespace();
        let soft = words.next()?;
        let hard = words.next()?;
        if words.count() + 2 != words_behind(text) {
            return None;
        }
        Some(LimitLine { place, soft, hard })
    }

    /// What the line says, if it names a limit.
    pub fn from_line(line: &'a str) -> Result<Option<LimitLine<'a>>, Fault>
        ensures { seen_entry result ≡ entry_of line.now }
    {
        let text = trimmed(line);
        if strip_prefix(text, "Limit").is_some() {
            return Ok(None);
        }
        if let Some(limit_line) = LimitLine::plain(text) {
            return Ok(Some(limit_line));
        }
        let count = count_words(text);
        if count < 3 {
            return Err(Fault::new(Reason::Short));
        }
        let n = count - words_behind(text);
        let Some(place) = place_of(text, n) else {
            return Ok(None);
        };
        Ok(Some(LimitLine {
            place,
            soft: word_at(text, n),
            hard: word_at(text, n + 1),
        }))
    }
}
