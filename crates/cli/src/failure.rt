// How a program ends that could not do what it was asked.
use crate::escaped::Escaped;
use std::alloc::AllocError;
use std::io;
use std::io::ErrorKind;
use std::process::ExitCode;
use thiserror::Error;

/// What a program could not do, by the name of the stream or file.
#[derive(Debug, Drop, Error)]
pub enum Failure<'a> {
    #[error("{}: {error}", Escaped(.path))]
    File { path: &'a str, error: io::Error },
    #[error("standard input: {0}")]
    Input(io::Error),
    #[error("standard output: {0}")]
    Output(io::Error),
    #[error("standard error: {0}")]
    Errors(io::Error),
    #[error("arguments: {0}")]
    Arguments(io::Error),
    #[error("out of memory")]
    Memory(#[from(alloc)] AllocError),
}

impl<'a> Failure<'a> {
    /// What writing to standard output came to.
    pub fn output(written: io::Result<()>) -> Result<(), Failure<'a>> {
        match written {
            Ok(()) => Ok(()),
            Err(error) => Err(Failure::Output(error)),
        }
    }

    /// What writing to standard error came to.
    pub fn errors(written: io::Result<()>) -> Result<(), Failure<'a>> {
        match written {
            Ok(()) => Ok(()),
            Err(error) => Err(Failure::Errors(error)),
        }
    }

    /// A file that an argument names could not be read; `-` is standard input.
    pub fn reading(path: &'a str, error: io::Error) -> Failure<'a> {
        if path == "-" {
            Failure::Input(error)
        } else {
            Failure::File { path, error }
        }
    }

    // Whether who read the output has gone, which is no fault.
    fn is_closed_pipe(&self) -> bool {
        match self {
            Failure::Output(error) => error.kind() == ErrorKind::BrokenPipe,
            _ => false,
        }
    }
}

/// The exit status of what a program did. A failure is told on standard error as `PROGRAM: WHAT: error`, but a closed pipe ends it quietly.
pub fn finish(rt: &impl Eprint, program: &str, outcome: Result<ExitCode, Failure<'_>>) -> ExitCode {
    match outcome {
        Ok(code) => code,
        Err(failure) if failure.is_closed_pipe() => ExitCode::SUCCESS,
        Err(failure) => {
            // Where standard error is closed too, only the status is left to tell.
            let _ = eprintln!(rt; "{program}: {failure}");
            ExitCode::FAILURE
        }
    }
}
