// What can be wrong with a script.
ghost use Rattle.std.specs.Prelude.{◌≡◌, Some, Ok, Err, MatchResult};
ghost use Rattle.packlist.specs.declared.mistake.Mistake.TheVariants as mistake;

use cli::escaped::Escaped;
use std::alloc::{AllocError, AllocFailed};
use std::io;
use thiserror::Error;

/// What is wrong with a line, or with the whole.
#[derive(Debug, Drop, Error)]
pub enum Mistake<'a> {
    #[error("the line is not UTF-8")]
    Utf8,
    #[error("no call is named `{}`; `packlist --help` says what there is", Escaped(.0))]
    Unknown(&'a str),
    /// How the call is written.
    #[error("the call is written `{0}`")]
    Usage(&'static str),
    #[error("`{}` is no pid: that is a number from -2147483648 to 2147483647", Escaped(.0))]
    Pid(&'a str),
    #[error("`{}` is no number of bytes: that is digits alone, up to 18446744073709551615", Escaped(.0))]
    Bytes(&'a str),
    #[error("no limit: the first call must be `limit BYTES`")]
    NoLimit,
    #[error("a second limit: only the first call is one")]
    SecondLimit,
    #[error("no measure above is named `{}`", Escaped(.0))]
    NoMeasure(&'a str),
    #[error("`{}` can't be read: {error}", Escaped(.path))]
    Unread { path: &'a str, error: io::Error },
    #[error("`{}` is no well-made recording", Escaped(.0))]
    Spool(&'a str),
    #[error("out of memory")]
    Memory,
}

/// Why a script is not run: a mistake, with the number of its line, if it is of one.
#[derive(Debug, Drop)]
pub struct Fault<'a> {
    pub line: Option<u64>,
    pub mistake: Mistake<'a>,
}

impl From<AllocError> for Mistake<'_> {
    ghost from_gives = { λ _ r. r ≡ mistake.Memory };

    fn from(_error: AllocError) -> Self {
        Mistake::Memory
    }
}

impl<T: Drop> From<AllocFailed<T>> for Mistake<'_> {
    ghost from_gives = { λ _ r. r ≡ mistake.Memory };

    fn from(_error: AllocFailed<T>) -> Self {
        Mistake::Memory
    }
}

impl From<AllocError> for Fault<'_> {
    fn from(error: AllocError) -> Self {
        Fault {
            line: None,
            mistake: Mistake::from(error),
        }
    }
}

impl<T: Drop> From<AllocFailed<T>> for Fault<'_> {
    fn from(error: AllocFailed<T>) -> Self {
        Fault::from(AllocError::from(error))
    }
}

/// A mistake gains the number of its line.
pub fn at_line<'a, T>(line: u64, outcome: Result<T, Mistake<'a>>) -> Result<T, Fault<'a>>
    ensures { MatchResult result (λ v. outcome.entry ≡ Ok v) (λ f. (f.line ≡ Some line) × (outcome.entry ≡ Err f.mistake)) }
{
    outcome.map_err(|mistake| Fault {
        line: Some(line),
        mistake,
    })
}

#[cfg(test)]
mod tests {
    use super::*;
    use std::test::Fail;

    // What is said of each mistake.
    #[test]
    fn says(rt: HostRuntime) -> Result<(), Fail> {
        let path = "no\u{9b}such";
        let error = io::Error::from(io::ErrorKind::NotFound);
        for (mistake, said) in [
            (Mistake::Utf8, "the line is not UTF-8"),
            (
                Mistake::Unknown("ad\u{1b}mit"),
                "no call is named `ad\\x1bmit`; `packlist --help` says what there is",
            ),
            (Mistake::Usage("look PID"), "the call is written `look PID`"),
            (
                Mistake::Pid("4x"),
                "`4x` is no pid: that is a number from -2147483648 to 2147483647",
            ),
            (
                Mistake::Bytes("-1"),
                "`-1` is no number of bytes: that is digits alone, up to 18446744073709551615",
            ),
            (
                Mistake::NoLimit,
                "no limit: the first call must be `limit BYTES`",
            ),
            (
                Mistake::SecondLimit,
                "a second limit: only the first call is one",
            ),
            (
                Mistake::NoMeasure("we\\b"),
                "no measure above is named `we\\\\b`",
            ),
            (
                Mistake::Unread { path, error },
                "`no\\u{9b}such` can't be read: entity not found",
            ),
            (
                Mistake::Spool("db.spool"),
                "`db.spool` is no well-made recording",
            ),
            (Mistake::Memory, "out of memory"),
        ] {
            let text = format!(in rt.alloc(); "{mistake}")?;
            assert_eq!(rt; text.as_str(), said);
        }
        Ok(())
    }
}
