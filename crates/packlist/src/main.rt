//! Runs a script of calls on one packing list, and prints what each is answered, and what is then used and left.
//!
//! The script is the file that the first argument names, or standard input where there is no argument or it is `-`. script.rt says what its lines are.
#![tactic(auto)]

mod asked;
mod files;
mod mistake;
mod names;
mod outcomes;
mod report;
mod script;
mod warnings;

ghost use Rattle.std.specs.Prelude.{◌≡◌, IfOk, length, vec_len};
ghost use Rattle.runs.specs.Run.{answers_of};
ghost use Rattle.packlist.specs.Files.{call_with, calls_of, calls_with};
ghost use Rattle.packlist.specs.Outcomes.{in_turn, outcomes_of};

use asked::{Asked, column};
use clap::{Arg, Command};
use cli::arguments;
use cli::arguments::Arguments;
use cli::failure::{Failure, finish};
use cli::text_file::{Given, read_given};
use files::{calls, read_texts};
use mistake::Fault;
use outcomes::{Outcome, outcomes};
use report::{Room, Row, Told};
use runs::run::{Memory, run};
use script::{Script, parse};
use std::alloc::{AllocError, Global};
use std::env::Env;
use std::io;
use std::io::{BufWriter, Write};
use std::process::ExitCode;
use std::rt::Files;
use warnings::find_warning;

const PROGRAM: &str = "packlist";

const CALLS: &str =
    "A script has a call a line; blank lines and those that begin with # are skipped:
  limit BYTES                      a list with this limit; the first call
  measure NAME [recording] FILE    measures an smaps text
  admit PID HEADROOM NAME          takes a job in, charged for that measure and a headroom
  remeasure PID NAME               charges a job anew
  note PID [recording] FILE        keeps what a status text tells of a job
  bound PID [recording] FILE       keeps what a limits text tells of a job
  release PID                      frees the place of a job
  look PID                         tells what is kept of a job
  used                             tells the sum of the charges";

fn command<'a>(alloc: Global) -> Result<Command<'a>, AllocError> {
    let script = Arg::new(alloc, "SCRIPT").help(
        "The script's file; standard input where it is missing, or -",
    );
    Command::new(alloc, PROGRAM)
        .version("0.1.0")
        .about("Runs a script of calls on one packing list, and prints what each is answered")
        .after_help(CALLS)
        .arg(script)
}

// What a script is answered where its lines have these texts: of each line what its call is answered, and what is used after it.
fn run_script<'a>(
    alloc: Global,
    script: &Script<'a>,
    texts: &[Vec<u8>],
) -> Result<Vec<Outcome>, Fault<'a>>
    requires { length texts.now ≡ vec_len script.now.lines }
    ensures defined { IfOk result (λ v. v.items ≡ outcomes_of script.now.limit.bytes (calls_with (λ l b. call_with b.items l.call) script.now.lines.items texts.now)) }
    ensures in_turn { IfOk result (λ v. in_turn v.items ≡ answers_of script.now.limit.bytes (calls_of (λ l b. call_with b.items l.call) script.now.lines.items texts.now)) }
    ensures each { IfOk result (λ v. vec_len v ≡ vec_len script.now.lines) }
{
    let calls = calls(alloc, script.lines.as_slice(), texts)?;
    let memory = Memory::new(alloc, calls.len())?;
    let answers = run(script.limit.bytes, calls, memory).unwrap();
    Ok(outcomes(alloc, answers.as_slice())?)
}

// Tells on standard error which texts look as if their process had ended.
fn warn<'a>(
    rt: &(impl Eprint + AllocGlobal),
    path: &str,
    script: &Script<'_>,
    texts: &[Vec<u8>],
) -> Result<(), Failure<'a>> {
    for (line, text) in script.lines.iter().zip(texts) {
        if let Some(warning) = find_warning(rt.alloc(), line, text.as_slice())? {
            let written = eprintln!(rt; "{}:{}: {warning}", Given(path), line.number);
            Failure::errors(written)?;
        }
    }
    Ok(())
}

fn write_report(out: &mut impl Write, script: &Script<'_>, outcomes: &[Outcome]) -> io::Result<()> {
    let limit = script.limit.bytes;
    let column = column(script);
    let asked = Asked::new(script.limit.words.as_slice(), column);
    writeln!(out, "{asked} ok; {}", Room { limit, used: 0 })?;
    for (line, outcome) in script.lines.iter().zip(outcomes) {
        let asked = Asked::new(line.words.as_slice(), column);
        let told = Told {
            call: &line.call,
            outcome: *outcome,
            limit,
        };
        writeln!(out, "{}", Row { asked, told })?;
    }
    out.flush()
}

fn print_report<'a>(
    rt: &(impl Print + AllocGlobal),
    script: &Script<'_>,
    outcomes: &[Outcome],
) -> Result<(), Failure<'a>> {
    let mut out = match BufWriter::new(rt.alloc(), io::writer(rt)) {
        Ok(out) => out,
        Err(error) => return Err(Failure::Output(error)),
    };
    Failure::output(write_report(&mut out, script, outcomes))
}

// Prints what is wrong with the script of this path.
fn print_fault<'a>(rt: &impl Eprint, path: &str, fault: &Fault<'_>) -> Result<(), Failure<'a>> {
    let name = Given(path);
    let mistake = &fault.mistake;
    Failure::errors(match fault.line {
        Some(line) => eprintln!(rt; "{name}:{line}: {mistake}"),
        None => eprintln!(rt; "{name}: {mistake}"),
    })
}

// The script that a text is, with what its files hold. All files are read before anything is run.
fn read_script<'a>(
    rt: &(impl Files + AllocGlobal),
    text: &'a [u8],
) -> Result<(Script<'a>, Vec<Vec<u8>>), Fault<'a>>
    ensures { IfOk result (λ s. vec_len s.1 ≡ vec_len s.0.lines) }
{
    let script = parse(rt.alloc(), text)?;
    let texts = read_texts(rt, script.lines.as_slice())?;
    Ok((script, texts))
}

// Runs the script in a file, and answers the exit status.
fn run_file<'a>(
    rt: &(impl Files + Input + Print + Eprint + AllocGlobal),
    path: &'a str,
) -> Result<ExitCode, Failure<'a>> {
    let text = match read_given(rt, path, u64::MAX) {
        Ok(text) => text,
        Err(error) => return Err(Failure::reading(path, error)),
    };
    let (script, texts) = match read_script(rt, text.as_slice()) {
        Ok(read) => read,
        Err(fault) => {
            print_fault(rt, path, &fault)?;
            return Ok(ExitCode::FAILURE);
        }
    };
    warn(rt, path, &script, texts.as_slice())?;
    match run_script(rt.alloc(), &script, texts.as_slice()) {
        Ok(outcomes) => {
            print_report(rt, &script, outcomes.as_slice())?;
            Ok(ExitCode::SUCCESS)
        }
        Err(fault) => {
            print_fault(rt, path, &fault)?;
            Ok(ExitCode::FAILURE)
        }
    }
}

// Does what the words behind the program's name ask for.
fn run_words<'a>(
    rt: &(impl Files + Input + Print + Eprint + AllocGlobal),
    words: &'a [String],
) -> Result<ExitCode, Failure<'a>> {
    let command = command(rt.alloc())?;
    match arguments::read(rt, PROGRAM, command, words)? {
        Arguments::Given(matches) => run_file(rt, matches.get_str("SCRIPT").unwrap_or("-")),
        Arguments::Told(status) => Ok(status),
    }
}

fn main(rt: HostRuntime) -> ExitCode {
    match arguments::words(&rt) {
        Ok(words) => finish(&rt, PROGRAM, run_words(&rt, words.as_slice())),
        Err(failure) => finish(&rt, PROGRAM, Err(failure)),
    }
}
