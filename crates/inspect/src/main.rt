//! Prints what a process's texts of /proc say, for people: rows of mappings, status, limits, targets of descriptors, system calls and words of page tables.
//!
//! The arguments are one request, or `script` and a file of requests. arguments.rt says what they are, and request.rt how a script writes them.
#![tactic(auto)]

mod answer;
mod arguments;
mod limits_text;
mod note;
mod request;
mod rows_text;
mod script;
mod status_text;
mod support_text;
mod text;
mod trouble;

use answer::Answer;
use arguments::{Asked, command};
use cli::arguments::{Arguments, read, words};
use cli::failure::{Failure, finish};
use request::Request;
use script::run_script;
use std::process::ExitCode;
use std::rt::Files;

const PROGRAM: &str = "inspect";

// Answers one request. A refusal goes to standard output, as an answer does.
fn run_request<'a>(
    rt: &(impl Files + Input + Print + Eprint + AllocGlobal),
    request: &Request<'a>,
) -> Result<ExitCode, Failure<'a>> {
    let answer = Answer::to(rt, request)?;
    Failure::output(print!(rt; "{}", answer.text))?;
    if let Some(note) = answer.note {
        Failure::errors(eprintln!(rt; "{PROGRAM}: {note}"))?;
    }
    Ok(if answer.is_refusal {
        ExitCode::FAILURE
    } else {
        ExitCode::SUCCESS
    })
}

// Does what the arguments ask for.
fn run<'a>(
    rt: &(impl Files + Input + Print + Eprint + AllocGlobal),
    words: &'a [String],
) -> Result<ExitCode, Failure<'a>> {
    let matches = match read(rt, PROGRAM, command(rt.alloc())?, words)? {
        Arguments::Given(matches) => matches,
        Arguments::Told(code) => return Ok(code),
    };
    match Asked::from_matches(&matches) {
        Some(Asked::Request(request)) => run_request(rt, &request),
        Some(Asked::Script(path)) => run_script(rt, path),
        None => {
            Failure::errors(eprintln!(rt; "{PROGRAM}: no request; try '{PROGRAM} --help'"))?;
            Ok(ExitCode::from(2))
        }
    }
}

fn main(rt: HostRuntime) -> ExitCode {
    match words(&rt) {
        Ok(words) => finish(&rt, PROGRAM, run(&rt, words.as_slice())),
        Err(failure) => finish(&rt, PROGRAM, Err(failure)),
    }
}
