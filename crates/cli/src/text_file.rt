// Files, and the texts that they hold.
ghost use Rattle.std.specs.Prelude.{◌≡◌};
ghost use Rattle.cli.specs.TextFile.{file_of};

use crate::escaped::Escaped;
use sources::drive::{MAX_LINE, MAX_TEXT};
use sources::input::Form;
use std::fmt::{Display, Formatter};
use std::fs::File;
use std::io::Read;
use std::rt::Files;
use std::{fmt, io};

/// At most so many bytes of a file, from its front.
pub fn read_file(rt: &(impl Files + AllocGlobal), path: &str, most: u64) -> io::Result<Vec<u8>> {
    let mut bytes = Vec::new(rt.alloc());
    let opened = File::open(rt, path)?;
    opened.take(most).read_to_end(&mut bytes)?;
    Ok(bytes)
}

/// The same of a file that an argument names: `-` is standard input.
pub fn read_given(
    rt: &(impl Files + Input + AllocGlobal),
    path: &str,
    most: u64,
) -> io::Result<Vec<u8>> {
    if path != "-" {
        return read_file(rt, path, most);
    }
    let mut bytes = Vec::new(rt.alloc());
    rt.reader().take(most).read_to_end(&mut bytes)?;
    Ok(bytes)
}

/// What a file that an argument names is called in messages.
#[derive(Clone, Copy, Debug)]
pub struct Given<'a>(pub &'a str);

impl Display for Given<'_> {
    fn fmt<W: fmt::Write>(&self, f: &mut Formatter<W>) -> fmt::Result {
        if self.0 == "-" {
            f.write_str("standard input")
        } else {
            write!(f, "{}", Escaped(self.0))
        }
    }
}

/// The file of a text, and how it holds it.
#[derive(Clone, Copy, Debug)]
pub struct TextFile<'a> {
    pub form: Form,
    pub path: &'a str,
}

impl<'a> TextFile<'a> {
    /// The file that words name: its path, alone or behind the word `recording`.
    pub fn from_words(words: &[&'a str]) -> Option<TextFile<'a>>
        ensures { result ≡ file_of words.now }
    {
        match words {
            [path] => Some(TextFile {
                form: Form::Plain,
                path,
            }),
            ["recording", path] => Some(TextFile {
                form: Form::Recording,
                path,
            }),
            _ => None,
        }
    }

    /// How many bytes of the file matter: of a text, one piece more than the longest; of a recording, all.
    pub fn most(self) -> u64 {
        match self.form {
            Form::Plain => (MAX_TEXT + MAX_LINE) as u64,
            Form::Recording => u64::MAX,
        }
    }

    /// The bytes that matter.
    pub fn read(self, rt: &(impl Files + AllocGlobal)) -> io::Result<Vec<u8>> {
        read_file(rt, self.path, self.most())
    }
}
