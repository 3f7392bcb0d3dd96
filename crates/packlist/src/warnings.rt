// Texts that look as if their process ended while it was read.
use crate::files::file_of;
use crate::script::Line;
use cli::escaped::Escaped;
use cli::pulled::{Ending, Pulled};
use cli::sign::Sign;
use cli::text_file::TextFile;
use runs::call::Call;
use sources::drive::MAX_TEXT;
use sources::input::Input;
use std::alloc::{AllocError, Global};
use std::fmt;
use std::fmt::{Display, Formatter};

/// A sign that a text bears, with the path of its file.
#[derive(Clone, Copy, Debug)]
pub struct Warning<'a> {
    pub path: &'a str,
    pub sign: Sign,
}

impl Display for Warning<'_> {
    fn fmt<W: fmt::Write>(&self, f: &mut Formatter<W>) -> fmt::Result {
        write!(f, "{}: {}", Escaped(self.path), self.sign)
    }
}

// How the text ends that these bytes hold; nothing where it is too long to be read to its end, or no well-made recording.
fn ending(alloc: Global, file: TextFile<'_>, bytes: &[u8]) -> Result<Option<Ending>, AllocError> {
    let Ok(mut input) = Input::new(file.form, bytes) else {
        return Ok(None);
    };
    let text = Pulled::new(alloc, &mut input)?;
    if text.bytes.len() > MAX_TEXT {
        return Ok(None);
    }
    Ok(Some(text.ending()))
}

/// What there is to say of the text of a line.
pub fn find_warning<'a>(
    alloc: Global,
    line: &Line<'a>,
    bytes: &[u8],
) -> Result<Option<Warning<'a>>, AllocError> {
    let Some(file) = file_of(&line.call) else {
        return Ok(None);
    };
    let path = file.path;
    let maps = matches!(&line.call, Call::Measure { .. });
    Ok(match ending(alloc, file, bytes)? {
        Some(ending) => Sign::of(ending, maps).map(|sign| Warning { path, sign }),
        None => None,
    })
}

#[cfg(test)]
mod tests {
    use super::*;
    use std::test::Fail;

    // What is said of each sign.
    #[test]
    fn says(rt: HostRuntime) -> Result<(), Fail> {
        for (path, sign, said) in [
            (
                "web.smaps",
                Sign::Unmapped,
                "web.smaps: nothing is mapped: the process may have ended",
            ),
            (
                "web.status",
                Sign::Empty,
                "web.status: is empty: the process may have ended",
            ),
            (
                "we\tb",
                Sign::BreaksOff,
                "we\\x09b: breaks off in the middle of a line: the process may have ended",
            ),
        ] {
            let text = format!(in rt.alloc(); "{}", Warning { path, sign })?;
            assert_eq!(rt; text.as_str(), said);
        }
        Ok(())
    }
}
