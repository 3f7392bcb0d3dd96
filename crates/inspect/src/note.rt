// What is told beside an answer: that a text looks as if its process had ended.
use crate::request::Topic;
use cli::pulled::{Ending, Pulled};
use cli::sign::Sign;
use cli::text_file::{Given, TextFile};
use std::fmt;
use std::fmt::{Display, Formatter};

/// How a text ends, where that is not as it should.
#[derive(Clone, Copy)]
pub struct Note<'a> {
    path: &'a str,
    sign: Sign,
}

impl<'a> Note<'a> {
    /// What is told of a text of this topic that a file holds, and of which so many bytes were read. Where more stand in the file, its end was not seen.
    pub fn new(topic: Topic, file: TextFile<'a>, read: usize, text: &Pulled) -> Option<Note<'a>> {
        let ending = text.ending();
        if ending == Ending::MidLine && read as u64 == file.most() {
            return None;
        }
        let sign = Sign::of(ending, topic == Topic::Rows)?;
        Some(Note {
            path: file.path,
            sign,
        })
    }
}

impl Display for Note<'_> {
    fn fmt<W: fmt::Write>(&self, f: &mut Formatter<W>) -> fmt::Result {
        write!(f, "{}: {}", Given(self.path), self.sign)
    }
}
