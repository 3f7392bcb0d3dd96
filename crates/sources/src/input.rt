ghost use Rattle.std.specs.Prelude.{◌≡◌, true, false, Ok, Err};
ghost use Rattle.sources.specs.declared.input.Input.TheVariants.{Plain, Recording};
ghost use Rattle.sources.specs.declared.reason.Reason.TheVariants as reason;
ghost use Rattle.sources.specs.Faults.{refused};
ghost use Rattle.sources.specs.Given.{Given};
ghost use Rattle.sources.specs.Inputs.{holds_text, text_in};

use crate::fault::Refusal;
use crate::held::Held;
use crate::source::{Piece, Source};
use crate::spool::Spool;

/// How bytes hold a text: they are the text, or a recording of it.
#[derive(Clone, Copy, Debug)]
pub enum Form {
    Plain,
    Recording,
}

/// Bytes of one of these forms as a source.
#[derive(Drop)]
pub enum Input<'a> {
    Plain(Held<'a>),
    Recording(Spool<'a>),
}

impl<'a> Input<'a> {
    /// Bytes that are to be a recording are refused where they are not well made.
    pub fn new(form: Form, bytes: &'a [u8]) -> Result<Input<'a>, Refusal>
        ensures { elim result [ Ok i ↦ (holds_text form bytes.now ≡ true) × (⟦<Input<'a> as Source>⟧.text i ≡ text_in form bytes.now) | Err e ↦ (holds_text form bytes.now ≡ false) × (e ≡ refused reason.Spool 0) ] }
    {
        match form {
            Form::Plain => Ok(Input::Plain(Held::new(bytes))),
            Form::Recording => Ok(Input::Recording(Spool::new(bytes)?)),
        }
    }
}

impl<'a> Source for Input<'a> {
    ghost text = { λ i. elim i [ Plain h ↦ ⟦<Held<'a> as Source>⟧.text h | Recording s ↦ ⟦<Spool<'a> as Source>⟧.text s ] };

    fn piece(&mut self, buf: &mut [u8]) -> Piece {
        match self {
            Input::Plain(held) => held.piece(buf),
            Input::Recording(spool) => spool.piece(buf),
        }
    }
}
