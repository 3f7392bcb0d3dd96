ghost use Rattle.std.specs.Prelude.{◌≡◌, false, drop};
ghost use Rattle.sources.specs.Given.{Given};
ghost use Rattle.sources.specs.Texts.{text};

use crate::source::{Piece, Source, reach};

/// Bytes in the caller's memory, from a place on; they end clean.
#[derive(Drop)]
pub struct Held<'a> {
    bytes: &'a [u8],
    place: usize,
}

impl<'a> Held<'a> {
    /// A source of these bytes, from the first on.
    pub fn new(bytes: &'a [u8]) -> Held<'a>
        ensures { ⟦<Held<'a> as Source>⟧.text result ≡ text bytes.now false }
    {
        Held { bytes, place: 0 }
    }
}

impl<'a> Source for Held<'a> {
    ghost text = { λ h. text (drop h.place h.bytes.now) false };

    fn piece(&mut self, buf: &mut [u8]) -> Piece {
        if buf.len() == 0 {
            return Piece::Bytes(0);
        }
        if self.place >= self.bytes.len() {
            return Piece::Ended;
        }
        let n = reach(&self.bytes[self.place..], buf.len());
        buf[0..n].copy_from_slice(&self.bytes[self.place..self.place + n]);
        self.place += n;
        Piece::Bytes(n)
    }
}
