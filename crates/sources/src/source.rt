ghost use Rattle.std.specs.Prelude.{◌≡◌};
ghost use Rattle.sources.specs.Bytes.{moved};
ghost use Rattle.sources.specs.Given.{Given};
ghost use Rattle.sources.specs.Texts.{Text};

use crate::find::find;

/// What one call of `piece` answers: bytes moved, or the ending, clean or broken.
/// No Result: an ending is no error, and all three are matched side by side.
#[derive(Clone, Copy, PartialEq, Eq, Debug)]
pub enum Piece {
    Bytes(usize),
    Ended,
    Broken,
}

/// Bytes that come a piece at a time. It means the bytes still to come, and whether their ending is broken.
pub trait Source {
    ghost text: { Self → Text };

    // Each source tests for an empty buffer itself, since a second method for that would be one more that callers choose from.
    // Moves bytes to the front of `buf`: as many as it has room for, as are left, and as stand through the next byte 10.
    fn piece(&mut self, buf: &mut [u8]) -> Piece
        ensures { Given buf.old (text self.old) result buf.new (text self.new) };
}

/// How many bytes a piece of at most `room` moves.
pub fn reach(bytes: &[u8], room: usize) -> usize
    ensures { result ≡ moved room bytes.now }
{
    let front = &bytes[..bytes.len().min(room)];
    match find(10, front) {
        Some(i) => i + 1,
        None => front.len(),
    }
}
