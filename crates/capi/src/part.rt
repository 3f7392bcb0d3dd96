// Texts that come in two parts, each bytes as they stand or a recording.
ghost use Rattle.std.specs.Prelude.{◌≡◌, Ok, Err};
ghost use Rattle.capi.specs.Parts.{form_of, join_of};

use crate::answer::Answer;
use sources::input::{Form, Input};
use sources::join::Join;
use sources::source::Source;

/// The number of bytes as they stand; 2 is that of a recording.
pub const PLAIN: u32 = 1;

fn form(number: u32) -> Option<Form>
    ensures { result ≡ form_of number }
{
    match number {
        PLAIN => Some(Form::Plain),
        2 => Some(Form::Recording),
        _ => None,
    }
}

/// The join of both parts, or what is to be answered.
pub fn join<'a>(
    first_form: u32,
    first: &'a [u8],
    second_form: u32,
    second: &'a [u8],
) -> Result<Join<Input<'a>, Input<'a>>, Answer>
    ensures { elim result [ Ok s ↦ Ok (⟦<Join<Input<'a>, Input<'a>> as Source>⟧.text s) ≡ join_of first_form first.now second_form second.now | Err a ↦ Err a ≡ join_of first_form first.now second_form second.now ] }
{
    let (Some(first_form), Some(second_form)) = (form(first_form), form(second_form)) else {
        return Err(Answer::wrong_use());
    };
    let first = Input::new(first_form, first).map_err(|refusal| Answer::of(refusal))?;
    let second = Input::new(second_form, second).map_err(|refusal| Answer::of(refusal))?;
    Ok(Join::new(first, second))
}
