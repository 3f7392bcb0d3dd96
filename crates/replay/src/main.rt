// Replays lists of texts with the answers expected, and prints what differs.
//
// The words are names of lists; `measure`, `rows`, `narrow`, `status`, `limits`, `target`, `syscall` or `page` before them says how the lists that follow are read, and without it they are read as measures. `narrow` is rows with small tables.
// A line of a list is a text, a tab, and what is expected. Of a measure: `ok MAPPINGS RSS PSS SWAPPSS`, `refused NUMBER LINE`, or the class of error that procfs-core answers.
// Of any other: `ok` and the fields, in order, or `refused NUMBER LINE FIELD`.
// In a text `\\` is a backslash, `\x` with two digits of base 16 is a byte, `\+` is all that stands before it once more, and `\!` at the end says that the text breaks off there.
#![tactic(auto)]

mod limits_text;
mod quoted;
mod rows_text;
mod status_text;
mod support_text;
mod text;

use anyhow::Context;
use kinds::measure::{Figures, measure};
use sources::fault::Refusal;
use sources::reason::Reason;
use std::alloc::{AllocError, Global};
use std::fmt::Display;
use std::rt::Files;
use std::{env, fs};
use text::{Text, unescaped};

// What a text is answered: a line as lists have it, and why it was refused, where a class of error may be expected instead.
#[derive(Drop)]
struct Answer {
    line: String,
    reason: Option<Reason>,
}

impl Answer {
    fn meets(&self, expected: &str) -> bool {
        self.line.as_str() == expected || self.reason.and_then(class) == Some(expected)
    }
}

// The class of error that procfs-core answers where this is refused.
fn class(reason: Reason) -> Option<&'static str> {
    match reason {
        Reason::Broken | Reason::Orphan => Some("incomplete"),
        Reason::Short => Some("short"),
        Reason::Figure => Some("figure"),
        Reason::Value => Some("other"),
        _ => None,
    }
}

// The answer to a text that is read as a measure.
fn measure_answer(heap: Global, text: &Text) -> Result<Answer, AllocError> {
    let figures = text.source().and_then(|mut source| measure(&mut source));
    let (line, reason) = match figures {
        Ok(closed) => {
            let mappings = closed.mappings();
            let Figures { rss, pss, swap_pss } = closed.totals();
            let line = format!(in heap; "ok {mappings} {rss} {pss} {swap_pss}")?;
            (line, None)
        }
        Err(refusal) => {
            let number = refusal.reason.number();
            let line = format!(in heap; "refused {number} {}", refusal.line)?;
            (line, Some(refusal.reason))
        }
    };
    Ok(Answer { line, reason })
}

// The answer to a text that is read into a record.
fn record_answer<D: Display + Drop>(
    heap: Global,
    read: Result<(), Refusal>,
    fields: D,
) -> Result<Answer, AllocError> {
    let line = match read {
        Ok(()) => format!(in heap; "ok{fields}")?,
        Err(refusal) => {
            let number = refusal.reason.number();
            format!(in heap; "refused {number} {} {}", refusal.line, refusal.field)?
        }
    };
    Ok(Answer { line, reason: None })
}

// How the texts of a list are read.
type Reading = fn(Global, &Text) -> Result<Answer, AllocError>;

// What a line of a list is answered, where that is not what it expects.
fn difference(heap: Global, read: Reading, line: &str) -> anyhow::Result<Option<Answer>>
    requires { IsAlwaysCallable read }
{
    let (escaped, expected) = line.split_once('\t').context("a line without a tab")?;
    let text = unescaped(heap, escaped.as_bytes())?;
    let answer = read(heap, &text)?;
    if answer.meets(expected) {
        return Ok(None);
    }
    Ok(Some(answer))
}

// Prints each line of a list that is not answered as it expects, with its answer, and then how many texts there are and how many differ.
fn replay(rt: &(impl Files + Print + AllocGlobal), read: Reading, name: &str) -> anyhow::Result<()>
    requires { IsAlwaysCallable read }
{
    let list = fs::read_to_string(rt, name)?;
    let texts = list.as_str().lines().count();
    // Counted where they are printed.
    let mut differ = 0u64;
    for line in list.as_str().lines() {
        if let Some(answer) = difference(rt.alloc(), read, line)? {
            rt.println(line)?;
            rt.println(answer.line.as_str())?;
            differ = differ.saturating_add(1);
        }
    }
    println!(rt; "{name}: {texts} texts, {differ} differ")?;
    Ok(())
}

fn main(rt: HostRuntime) -> anyhow::Result<()> {
    let mut read: Reading = measure_answer;
    for word in env::args(&rt)?.skip(1) {
        match word.as_str() {
            "measure" => read = measure_answer,
            "rows" => read = rows_text::answer,
            "narrow" => read = rows_text::narrow_answer,
            "status" => read = status_text::answer,
            "limits" => read = limits_text::answer,
            "target" => read = support_text::target_answer,
            "syscall" => read = support_text::syscall_answer,
            "page" => read = support_text::page_answer,
            name => replay(&rt, read, name)?,
        }
    }
    Ok(())
}
