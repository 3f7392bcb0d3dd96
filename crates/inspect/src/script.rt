// Requests from a file, one a line, their words between ASCII white space. A blank line is skipped, and so is one whose first word begins with `#`.
use crate::PROGRAM;
use crate::answer::Answer;
use crate::request::{Request, form_of};
use cli::escaped::Escaped;
use cli::failure::Failure;
use cli::text_file::{Given, read_given};
use std::alloc::{AllocError, Global};
use std::fmt;
use std::fmt::{Display, Formatter};
use std::process::ExitCode;
use std::rt::Files;

// A line with the request that it makes.
#[derive(Clone, Copy)]
struct Line<'a> {
    number: u64,
    text: &'a str,
    request: Request<'a>,
}

// What is wrong with a line.
#[derive(Clone, Copy)]
enum Mistake<'a> {
    Utf8,
    Unknown(&'a str),
    // How the request is written.
    Usage(&'static str),
}

impl Display for Mistake<'_> {
    fn fmt<W: fmt::Write>(&self, f: &mut Formatter<W>) -> fmt::Result {
        match self {
            Mistake::Utf8 => f.write_str("the line is not UTF-8"),
            Mistake::Unknown(word) => write!(
                f,
                "no request is named '{}'; try '{PROGRAM} --help'",
                Escaped(word)
            ),
            Mistake::Usage(form) => write!(f, "the request is written '{form}'"),
        }
    }
}

// The request that the words of a line make; none of a blank line and of a remark.
fn read_words<'a>(words: &[&'a str]) -> Result<Option<Request<'a>>, Mistake<'a>> {
    let [first, ..] = words else {
        return Ok(None);
    };
    if first.starts_with('#') {
        return Ok(None);
    }
    match (Request::from_words(words), form_of(first)) {
        (Some(request), _) => Ok(Some(request)),
        (None, Some(form)) => Err(Mistake::Usage(form)),
        (None, None) => Err(Mistake::Unknown(first)),
    }
}

// The lines of a script, or the first that is wrong.
#[derive(Drop)]
enum Script<'a> {
    Lines(Vec<Line<'a>>),
    Wrong { number: u64, mistake: Mistake<'a> },
}

fn read_script<'a>(alloc: Global, text: &'a [u8]) -> Result<Script<'a>, AllocError> {
    let mut lines = Vec::new(alloc);
    let mut number = 0u64;
    for line in text.split(|b| *b == b'\n') {
        number = number.saturating_add(1);
        let Ok(text) = str::from_utf8(line) else {
            let mistake = Mistake::Utf8;
            return Ok(Script::Wrong { number, mistake });
        };
        let words: Vec<&'a str> = text.split_ascii_whitespace().collect(alloc)?;
        match read_words(words.as_slice()) {
            Ok(Some(request)) => lines.push(Line {
                number,
                text: text.trim_ascii(),
                request,
            })?,
            Ok(None) => {}
            Err(mistake) => return Ok(Script::Wrong { number, mistake }),
        }
    }
    Ok(Script::Lines(lines))
}

// Tells something of a line of the script of this name.
fn tell<'a>(
    rt: &impl Eprint,
    name: &str,
    number: u64,
    what: &impl Display,
) -> Result<(), Failure<'a>> {
    Failure::errors(eprintln!(rt; "{PROGRAM}: {}:{number}: {what}", Given(name)))
}

// Answers a line of the script of this name; false where it is neither answered nor refused.
fn run_line<'a>(
    rt: &(impl Files + Input + Print + Eprint + AllocGlobal),
    name: &str,
    line: &Line<'_>,
) -> Result<bool, Failure<'a>> {
    Failure::output(println!(rt; "{}:", Escaped(line.text)))?;
    let answer = match Answer::to(rt, &line.request) {
        Ok(answer) => answer,
        Err(failure) => {
            tell(rt, name, line.number, &failure)?;
            return Ok(false);
        }
    };
    Failure::output(print!(rt; "{}", answer.text))?;
    if let Some(note) = answer.note {
        tell(rt, name, line.number, &note)?;
    }
    Ok(true)
}

// Answers all lines; a failure where one was neither answered nor refused.
fn run_lines<'a>(
    rt: &(impl Files + Input + Print + Eprint + AllocGlobal),
    name: &str,
    lines: &[Line<'_>],
) -> Result<ExitCode, Failure<'a>> {
    let mut code = ExitCode::SUCCESS;
    for line in lines {
        if !run_line(rt, name, line)? {
            code = ExitCode::FAILURE;
        }
    }
    Ok(code)
}

/// Runs the script in a file. Where a line is no request, nothing is run.
pub fn run_script<'a>(
    rt: &(impl Files + Input + Print + Eprint + AllocGlobal),
    path: &'a str,
) -> Result<ExitCode, Failure<'a>> {
    let text = match read_given(rt, path, u64::MAX) {
        Ok(text) => text,
        Err(error) => return Err(Failure::reading(path, error)),
    };
    match read_script(rt.alloc(), text.as_slice())? {
        Script::Lines(lines) => run_lines(rt, path, lines.as_slice()),
        Script::Wrong { number, mistake } => {
            tell(rt, path, number, &mistake)?;
            Ok(ExitCode::FAILURE)
        }
    }
}
