// A text as a whole, pulled out of its source.
ghost use Rattle.std.specs.Prelude.{◌≡◌, IfOk};
ghost use Rattle.cli.specs.Pulled.{ending_of};
ghost use Rattle.sources.specs.Texts.{text};

use sources::source::{Piece, Source};
use std::alloc::{AllocError, Global};

/// How a text ends.
#[derive(Clone, Copy, Debug, PartialEq, Eq)]
pub enum Ending {
    /// It has no byte.
    Empty,
    /// Its last line is whole.
    Whole,
    /// It broke off, or its last line has no byte 10.
    MidLine,
}

/// The bytes of a text, and whether it broke off behind them.
#[derive(Debug, Drop)]
pub struct Pulled {
    pub bytes: Vec<u8>,
    pub broken: bool,
}

impl Pulled {
    /// All that a source has still to give.
    pub fn new<S: Source>(alloc: Global, source: &mut S) -> Result<Pulled, AllocError>
        ensures { IfOk result (λ p. text p.bytes.items p.broken ≡ S.text source.old) }
    {
        let mut bytes = Vec::new(alloc);
        let mut buf = [0u8; 4096];
        loop {
            match source.piece(&mut buf) {
                Piece::Bytes(n) => bytes.extend_from_slice(&buf[..n])?,
                Piece::Ended => {
                    return Ok(Pulled {
                        bytes,
                        broken: false,
                    });
                }
                Piece::Broken => {
                    return Ok(Pulled {
                        bytes,
                        broken: true,
                    });
                }
            }
        }
    }

    /// How the text ends.
    pub fn ending(&self) -> Ending
        ensures { result ≡ ending_of (text self.now.bytes.items self.now.broken) }
    {
        if self.broken {
            return Ending::MidLine;
        }
        match self.bytes.as_slice() {
            [] => Ending::Empty,
            [.., b'\n'] => Ending::Whole,
            [.., _] => Ending::MidLine,
        }
    }
}
