ghost use Rattle.std.specs.Prelude.{◌≡◌};
ghost use Rattle.capi.specs.Answers.{accepted, wrong_use, answer_of};

use sources::fault::Refusal;

/// What a call answers: number 0, a refusal's number with its line and field, or 255 for wrong use.
/// Numbers stand for refusals, since C is handed no enum.
#[repr(C)]
#[derive(Clone, Copy)]
pub struct Answer {
    pub number: u32,
    pub line: u32,
    pub field: u32,
}

impl Answer {
    /// What an accepted call answers.
    pub fn accepted() -> Answer
        ensures { result ≡ accepted }
    {
        Answer {
            number: 0,
            line: 0,
            field: 0,
        }
    }

    /// Of cells that hold no list, of a form that is none.
    pub fn wrong_use() -> Answer
        ensures { result ≡ wrong_use }
    {
        Answer {
            number: 255,
            line: 0,
            field: 0,
        }
    }

    /// What a refusal is over the boundary.
    pub fn of(refusal: Refusal) -> Answer
        ensures { result ≡ answer_of refusal }
    {
        Answer {
            number: u32::from(refusal.reason.number()),
            line: refusal.line,
            field: refusal.field,
        }
    }
}
