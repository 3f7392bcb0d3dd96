ghost use Rattle.std.specs.Prelude.{◌<◌};

use sources::fault::Refusal;
use sources::held::Held;
use sources::join::Join;
use sources::spool::Spool;
use std::alloc::{AllocError, Global};

// A text of a list: its bytes, and the record, without bytes, that a recording of it ends with.
#[derive(Drop)]
pub struct Text {
    pub bytes: Vec<u8>,
    end: [u8; 64],
}

impl Text {
    fn new(bytes: Vec<u8>, broken: bool) -> Text {
        let mut end = [0; 64];
        end[1] = if broken { 2 } else { 1 };
        Text { bytes, end }
    }

    // The bytes from memory, and the ending from a recording.
    pub fn source(&self) -> Result<Join<Held, Spool>, Refusal> {
        let end = Spool::new(self.end.as_slice())?;
        Ok(Join::new(Held::new(self.bytes.as_slice()), end))
    }
}

// Capital letters count 0, as any other byte does; `char::to_digit` would read them.
fn digit(b: u8) -> u8
    ensures { result < 16 }
{
    match b {
        b'0'..=b'9' => b - b'0',
        b'a'..=b'f' => b - b'a' + 10,
        _ => 0,
    }
}

// The bytes twice.
fn doubled(mut bytes: Vec<u8>) -> Result<Vec<u8>, AllocError> {
    let copy = bytes.clone()?;
    bytes.extend_from_slice(copy.as_slice())?;
    Ok(bytes)
}

// The text that a text of a list stands for. A loop over patterns: an escape takes two bytes or four.
pub fn unescaped(heap: Global, escaped: &[u8]) -> Result<Text, AllocError> {
    let mut out = Vec::new(heap);
    let mut rest = escaped;
    loop {
        let (byte, more) = match rest {
            [b'\\', b'x', a, b, more @ ..] => (digit(*a) * 16 + digit(*b), more),
            [b'\\', b'\\', more @ ..] => (b'\\', more),
            [b'\\', b'+', more @ ..] => {
                out = doubled(out)?;
                rest = more;
                continue;
            }
            [b'\\', b'!'] => return Ok(Text::new(out, true)),
            [b, more @ ..] => (*b, more),
            [] => return Ok(Text::new(out, false)),
        };
        out.push(byte)?;
        rest = more;
    }
}
