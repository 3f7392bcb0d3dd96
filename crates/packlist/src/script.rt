// A script: a call a line, its words between ASCII white space. A blank line is skipped, and so is one whose first word begins with `#`.
//
//     limit BYTES
//     measure NAME [recording] FILE
//     admit PID HEADROOM NAME
//     remeasure PID NAME
//     note PID [recording] FILE
//     bound PID [recording] FILE
//     release PID
//     look PID
//     used
//
// The first call is the limit, and no other is. FILE holds smaps, status or limits text; after the word `recording` it holds a recording of one. NAME is the latest measure of that name above.
ghost use Rattle.std.specs.Prelude.{◌≡◌, ◌⊎◌, true, false, map, None, Some, IfOk, MatchResult};
ghost use Rattle.std.specs.Option.{ok_or};
ghost use Rattle.packlist.specs.declared.mistake.Mistake.TheVariants as mistake;
ghost use Rattle.packlist.specs.Script.{IsScript, IsNoScript, asked, bytes_in, came, pid_in, read_by, with_call, with_limit, with_line, with_name, words_of};
ghost use Rattle.packlist.specs.Names.{latest_of};
ghost use Rattle.sources.specs.Pieces.{bytes_of};
ghost use Rattle.sources.specs.Utf8.{is_utf8};

use crate::mistake::{Fault, Mistake, at_line};
use crate::names::Names;
use cli::text_file::TextFile;
use runs::call::Call;
use sources::number::{FromStrRadix, Radix};
use std::alloc::{AllocError, Global};

/// A line that asks for a call of the list, which names the files of its texts.
#[derive(Drop)]
pub struct Line<'a> {
    pub number: u64,
    pub words: Vec<&'a str>,
    pub call: Call<TextFile<'a>>,
}

/// The line that gives the limit.
#[derive(Drop)]
pub struct Limit<'a> {
    pub words: Vec<&'a str>,
    pub bytes: u64,
}

#[derive(Drop)]
pub struct Script<'a> {
    pub limit: Limit<'a>,
    pub lines: Vec<Line<'a>>,
}

// What is wrong with a call that has not the words it needs.
fn misuse<'a>(name: &'a str) -> Mistake<'a> {
    match name {
        "limit" => Mistake::Usage("limit BYTES"),
        "measure" => Mistake::Usage("measure NAME [recording] FILE"),
        "admit" => Mistake::Usage("admit PID HEADROOM NAME"),
        "remeasure" => Mistake::Usage("remeasure PID NAME"),
        "note" => Mistake::Usage("note PID [recording] FILE"),
        "bound" => Mistake::Usage("bound PID [recording] FILE"),
        "release" => Mistake::Usage("release PID"),
        "look" => Mistake::Usage("look PID"),
        "used" => Mistake::Usage("used"),
        _ => Mistake::Unknown(name),
    }
}

fn read_bytes<'a>(word: &'a str) -> Result<u64, Mistake<'a>>
    ensures { result ≡ bytes_in word.entry }
{
    FromStrRadix::from_str_radix(word, Radix::Decimal).map_err(|_| Mistake::Bytes(word))
}

fn read_pid<'a>(word: &'a str) -> Result<i32, Mistake<'a>>
    ensures { result ≡ pid_in word.entry }
{
    FromStrRadix::from_str_radix(word, Radix::Decimal).map_err(|_| Mistake::Pid(word))
}

// The number of the latest measure of a name.
fn latest<'a>(names: &Names<'a>, name: &'a str) -> Result<usize, Mistake<'a>>
    ensures { result ≡ ok_or (latest_of names.now name.now) (mistake.NoMeasure name.entry) }
{
    names.latest(name).ok_or(Mistake::NoMeasure(name))
}

// The call that a name and the words behind it ask for, with the names of the measures above.
#[tactic(auto, unfolding(crate::specs::Script::asked))]
fn read_call<'a>(
    name: &'a str,
    words: &[&'a str],
    names: &Names<'a>,
) -> Result<Call<TextFile<'a>>, Mistake<'a>>
    ensures { came result ≡ asked name.entry words.now names.now }
{
    match name {
        "measure" => {
            let [_, file @ ..] = words else {
                return Err(misuse(name));
            };
            Ok(Call::Measure {
                text: TextFile::from_words(file).ok_or(misuse(name))?,
            })
        }
        "admit" => {
            let [job, headroom, measure] = words else {
                return Err(misuse(name));
            };
            Ok(Call::Admit {
                pid: read_pid(job)?,
                headroom: read_bytes(headroom)?,
                measure: latest(names, measure)?,
            })
        }
        "remeasure" => {
            let [job, measure] = words else {
                return Err(misuse(name));
            };
            Ok(Call::Remeasure {
                pid: read_pid(job)?,
                measure: latest(names, measure)?,
            })
        }
        "note" => {
            let [job, file @ ..] = words else {
                return Err(misuse(name));
            };
            Ok(Call::Note {
                pid: read_pid(job)?,
                text: TextFile::from_words(file).ok_or(misuse(name))?,
            })
        }
        "bound" => {
            let [job, file @ ..] = words else {
                return Err(misuse(name));
            };
            Ok(Call::Bound {
                pid: read_pid(job)?,
                text: TextFile::from_words(file).ok_or(misuse(name))?,
            })
        }
        "release" => {
            let [job] = words else {
                return Err(misuse(name));
            };
            Ok(Call::Release {
                pid: read_pid(job)?,
            })
        }
        "look" => {
            let [job] = words else {
                return Err(misuse(name));
            };
            Ok(Call::Look {
                pid: read_pid(job)?,
            })
        }
        "used" => {
            let [] = words else {
                return Err(misuse(name));
            };
            Ok(Call::Used)
        }
        _ => Err(misuse(name)),
    }
}

// What the lines read so far come to.
#[derive(Drop)]
struct Draft<'a> {
    alloc: Global,
    limit: Option<Limit<'a>>,
    names: Names<'a>,
    lines: Vec<Line<'a>>,
}

// The text of a line.
#[tactic(auto, using(sources::proofs::Steps::text_true, sources::proofs::Steps::text_false))]
fn text_in<'a>(line: &'a [u8]) -> Result<&'a str, Mistake<'a>>
    ensures { MatchResult result (λ t. (t.now ≡ line.now) × (is_utf8 line.now ≡ true)) (λ m. (m ≡ mistake.Utf8) × (is_utf8 line.now ≡ false)) }
{
    match str::from_utf8(line) {
        Ok(text) => Ok(text),
        Err(_) => Err(Mistake::Utf8),
    }
}

// The words of a line, between ASCII white space.
fn words_in<'a>(alloc: Global, line: &'a [u8]) -> Result<Vec<&'a str>, Mistake<'a>>
    ensures { MatchResult result (λ v. (map bytes_of v.items ≡ words_of line.now) × (is_utf8 line.now ≡ true)) (λ m. (m ≡ mistake.Memory) ⊎ ((m ≡ mistake.Utf8) × (is_utf8 line.now ≡ false))) }
{
    let text = text_in(line)?;
    Ok(text.split_ascii_whitespace().collect(alloc)?)
}

// The name of a measure, where the call is one.
fn put_name<'a>(
    names: &mut Names<'a>,
    call: &Call<TextFile<'a>>,
    words: &[&'a str],
) -> Result<(), AllocError>
    ensures { IfOk result (λ _. names.new ≡ with_name call.now words.now names.old) }
{
    let Call::Measure { .. } = call else {
        return Ok(());
    };
    let [name, ..] = words else {
        return Ok(());
    };
    names.push(name)
}

impl<'a> Draft<'a> {
    fn put_limit(&mut self, words: Vec<&'a str>) -> Result<(), Mistake<'a>>
        ensures { MatchResult result (λ _. with_limit words.entry.items (read_by self.old) ≡ Some (read_by self.new)) (λ _. with_limit words.entry.items (read_by self.old) ≡ None) }
    {
        if self.limit.is_some() {
            return Err(Mistake::SecondLimit);
        }
        let [_, bytes] = words.as_slice() else {
            return Err(misuse("limit"));
        };
        let bytes = read_bytes(bytes)?;
        self.limit = Some(Limit { words, bytes });
        Ok(())
    }

    fn put_call(&mut self, number: u64, words: Vec<&'a str>) -> Result<(), Mistake<'a>>
        ensures { MatchResult result (λ _. with_call number words.entry.items (read_by self.old) ≡ Some (read_by self.new)) (λ m. (m ≡ mistake.Memory) ⊎ (with_call number words.entry.items (read_by self.old) ≡ None)) }
    {
        let [name, others @ ..] = words.as_slice() else {
            return Ok(());
        };
        if self.limit.is_none() {
            return Err(Mistake::NoLimit);
        }
        let call = read_call(name, others, &self.names)?;
        put_name(&mut self.names, &call, others)?;
        self.lines.push(Line {
            number,
            words,
            call,
        })?;
        Ok(())
    }

    // Takes in what a line of these words asks for.
    fn put(&mut self, number: u64, words: Vec<&'a str>) -> Result<(), Mistake<'a>>
        ensures { MatchResult result (λ _. with_line number words.entry.items (read_by self.old) ≡ Some (read_by self.new)) (λ m. (m ≡ mistake.Memory) ⊎ (with_line number words.entry.items (read_by self.old) ≡ None)) }
    {
        match words.as_slice() {
            [] => Ok(()),
            [first, ..] if first.starts_with('#') => Ok(()),
            ["limit", ..] => self.put_limit(words),
            [..] => self.put_call(number, words),
        }
    }
}

pub fn parse<'a>(alloc: Global, text: &'a [u8]) -> Result<Script<'a>, Fault<'a>>
    ensures { MatchResult result (λ s. IsScript text.now s) (λ f. IsNoScript text.now f) }
{
    let mut draft = Draft {
        alloc,
        limit: None,
        names: Names::new(alloc),
        lines: Vec::new(alloc),
    };
    let mut number = 0u64;
    for line in text.split(|b| *b == b'\n') {
        number = number.saturating_add(1);
        let words = at_line(number, words_in(alloc, line))?;
        at_line(number, draft.put(number, words))?;
    }
    let Draft { limit, lines, .. } = draft;
    match limit {
        Some(limit) => Ok(Script { limit, lines }),
        None => Err(Fault {
            line: None,
            mistake: Mistake::NoLimit,
        }),
    }
}
