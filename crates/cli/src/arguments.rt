// Arguments, read by clap.
use crate::escaped::Escaped;
use crate::failure::Failure;
use clap::{ArgMatches, Command};
use std::alloc::{AllocError, Global};
use std::env;
use std::env::Env;
use std::process::ExitCode;

/// What came of the arguments: they are given, or help, the version or what is wrong with them was told.
pub enum Arguments<'a> {
    Given(ArgMatches<'a>),
    Told(ExitCode),
}

/// The words behind the program's name.
pub fn words<'a>(rt: &(impl Env + AllocGlobal)) -> Result<Vec<String>, Failure<'a>> {
    match env::args(rt) {
        Ok(args) => Ok(args.skip(1).collect(rt.alloc())?),
        Err(error) => Err(Failure::Arguments(error)),
    }
}

// What a message of clap says is wrong, in one line: what stands between `error: ` and the first blank line.
fn in_one_line(alloc: Global, message: &str) -> Result<String, AllocError> {
    let message = message.strip_prefix("error: ").unwrap_or(message);
    let mut line = String::new(alloc);
    for part in message.lines().take_while(|part| !part.is_empty()) {
        if !line.is_empty() {
            line.push_str(" ")?;
        }
        line.push_str(part.trim_ascii())?;
    }
    Ok(line)
}

/// Reads the words by the command of this program. Help and the version go to standard output, and end it with status 0; what is wrong is told in one line on standard error, and ends it with status 2.
pub fn read<'a, 'b>(
    rt: &(impl Print + Eprint + AllocGlobal),
    program: &str,
    command: Command<'a>,
    words: &'a [String],
) -> Result<Arguments<'a>, Failure<'b>> {
    let error = match command.no_binary_name(true).try_get_matches_from(words) {
        Ok(matches) => return Ok(Arguments::Given(matches)),
        Err(error) => error,
    };
    if !error.use_stderr() {
        Failure::output(print!(rt; "{error}"))?;
        return Ok(Arguments::Told(ExitCode::SUCCESS));
    }
    let message = format!(in rt.alloc(); "{error}")?;
    let line = in_one_line(rt.alloc(), message.as_str())?;
    let line = Escaped(line.as_str());
    Failure::errors(eprintln!(rt; "{program}: {line}; try '{program} --help'"))?;
    Ok(Arguments::Told(ExitCode::from(2)))
}
