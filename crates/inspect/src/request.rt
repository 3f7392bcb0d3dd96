// What may be asked for.
use cli::fields::{LIMITS_FIELDS, STATUS_FIELDS};
use cli::text_file::TextFile;

/// How many words of a page table are shown where no count is given.
pub const WORDS: u64 = 512;

/// One byte more than a system call may have.
const CALL: u64 = 4097;

/// What a text is of.
#[derive(Clone, Copy, PartialEq, Eq)]
pub enum Topic {
    Rows,
    Status,
    Limits,
}

impl Topic {
    /// The topic of this name.
    pub fn named(name: &str) -> Option<Topic> {
        match name {
            "rows" => Some(Topic::Rows),
            "status" => Some(Topic::Status),
            "limits" => Some(Topic::Limits),
            _ => None,
        }
    }

    /// The names of its fields, from number 1 on.
    pub fn fields(self) -> &'static [&'static str] {
        match self {
            Topic::Rows => &[],
            Topic::Status => &STATUS_FIELDS,
            Topic::Limits => &LIMITS_FIELDS,
        }
    }
}

#[derive(Clone, Copy)]
pub enum Request<'a> {
    Text(Topic, TextFile<'a>),
    Target(&'a str),
    Syscall(&'a str),
    Pages { path: &'a str, count: u64 },
}

impl<'a> Request<'a> {
    /// The request that words are, if they are one.
    pub fn from_words(words: &[&'a str]) -> Option<Request<'a>> {
        match words {
            ["target", text] => Some(Request::Target(text)),
            ["syscall", path] => Some(Request::Syscall(path)),
            ["pages", path] => Some(Request::Pages { path, count: WORDS }),
            ["pages", path, count] => Some(Request::Pages {
                path,
                count: count.parse().ok()?,
            }),
            [name, file @ ..] => Some(Request::Text(
                Topic::named(name)?,
                TextFile::from_words(file)?,
            )),
            [] => None,
        }
    }

    /// Its file, and how many bytes of that matter.
    pub fn file(&self) -> Option<(&'a str, u64)> {
        match *self {
            Request::Text(_, file) => Some((file.path, file.most())),
            Request::Target(_) => None,
            Request::Syscall(path) => Some((path, CALL)),
            Request::Pages { path, count } => Some((path, count.saturating_mul(8))),
        }
    }
}

/// How a request of this name is written.
pub fn form_of(name: &str) -> Option<&'static str> {
    match name {
        "rows" => Some("rows [recording] FILE"),
        "status" => Some("status [recording] FILE"),
        "limits" => Some("limits [recording] FILE"),
        "target" => Some("target TEXT"),
        "syscall" => Some("syscall FILE"),
        "pages" => Some("pages FILE [COUNT]"),
        _ => None,
    }
}
