ghost use Rattle.std.specs.Prelude.{◌≡◌, true};
ghost use Rattle.sources.specs.Given.{Given};
ghost use Rattle.sources.specs.Texts.{joined};

use crate::source::{Piece, Source};

/// The first's bytes, and then the second's with its ending; a broken first ends it there, broken.
#[derive(Drop)]
pub struct Join<A, B> {
    first: A,
    second: B,
}

impl<A: Source, B: Source> Join<A, B> {
    /// The two texts as one.
    pub fn new(first: A, second: B) -> Join<A, B>
        ensures first { result.first ≡ first }
        ensures second { result.second ≡ second }
        ensures text { ⟦<Join<A, B> as Source>⟧.text result ≡ joined (A.text first) (B.text second) }
    {
        Join { first, second }
    }
}

impl<A: Source, B: Source> Source for Join<A, B> {
    ghost text = { λ j. joined (A.text j.first) (B.text j.second) };

    fn piece(&mut self, buf: &mut [u8]) -> Piece
        ensures given { Given buf.old (joined (A.text self.old.first) (B.text self.old.second)) result buf.new (joined (A.text self.new.first) (B.text self.new.second)) }
        // Behind a broken first the second is not asked for anything.
        ensures second { (A.text self.old.first).broken ≡ true → self.new.second ≡ self.old.second }
    {
        if buf.len() == 0 {
            return Piece::Bytes(0);
        }
        match self.first.piece(buf) {
            Piece::Broken => Piece::Broken,
            Piece::Ended => self.second.piece(buf),
            Piece::Bytes(k) => {
                if k == buf.len() || buf[k - 1] == 10 {
                    return Piece::Bytes(k);
                }
                match self.first.piece(&mut buf[k..]) {
                    Piece::Ended => match self.second.piece(&mut buf[k..]) {
                        Piece::Bytes(m) => Piece::Bytes(k + m),
                        _ => Piece::Bytes(k),
                    },
                    _ => Piece::Bytes(k),
                }
            }
        }
    }
}
