// What a line asked, as it is printed: its words, filled up so that the results stand in one column.
ghost use Rattle.std.specs.Prelude.{Some};
ghost use Rattle.packlist.specs.Report.{asked_text, others_text, words_text};

use crate::script::Script;
use cli::escaped::Escaped;
use cli::width::width;
use std::fmt;
use std::fmt::{Display, Formatter};

// Words of more characters than this move no other line's result.
const WIDEST: usize = 48;

// Words with escapes, and with a space between two.
#[derive(Clone, Copy)]
struct Words<'a>(&'a [&'a str]);

impl Display for Words<'_> {
    ghost output = { λ w. Some (words_text w.0.now) };

    fn fmt<W: fmt::Write>(&self, f: &mut Formatter<W>) -> fmt::Result {
        match self.0 {
            [] => Ok(()),
            [first, others @ ..] => write!(f, "{}{}", Escaped(first), Others(others)),
        }
    }
}

// Words, with a space before each.
#[derive(Clone, Copy)]
struct Others<'a>(&'a [&'a str]);

impl Display for Others<'_> {
    ghost output = { λ o. Some (others_text o.0.now) };

    fn fmt<W: fmt::Write>(&self, f: &mut Formatter<W>) -> fmt::Result {
        for word in self.0 {
            write!(f, " {}", Escaped(word))?;
        }
        Ok(())
    }
}

// The words of a line, a colon, and so many spaces.
#[derive(Clone, Copy)]
pub struct Asked<'a> {
    words: Words<'a>,
    spaces: usize,
}

impl<'a> Asked<'a> {
    // In a column of this width.
    pub fn new(words: &'a [&'a str], column: usize) -> Asked<'a> {
        let words = Words(words);
        Asked {
            words,
            spaces: column.saturating_sub(width(&words)),
        }
    }
}

impl Display for Asked<'_> {
    ghost output = { λ a. Some (asked_text a.words.0.now a.spaces) };

    fn fmt<W: fmt::Write>(&self, f: &mut Formatter<W>) -> fmt::Result {
        write!(f, "{}:", self.words)?;
        for _i in 0..self.spaces {
            f.write_str(" ")?;
        }
        Ok(())
    }
}

// The width of a line's words; 0 where they are too wide for the column.
fn width_in_column(words: &[&str]) -> usize {
    let width = width(&Words(words));
    if width <= WIDEST { width } else { 0 }
}

// The width of the column: that of the widest words that have at most 48 characters.
pub fn column(script: &Script<'_>) -> usize {
    let mut column = width_in_column(script.limit.words.as_slice());
    for line in &script.lines {
        column = column.max(width_in_column(line.words.as_slice()));
    }
    column
}
