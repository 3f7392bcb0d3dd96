// What came of each call, and what is used then.
ghost use Rattle.std.specs.Prelude.{◌≡◌, IfOk};
ghost use Rattle.packlist.specs.Outcomes.{paired};

use runs::call::Answer;
use std::alloc::{AllocError, Global};

/// What a call was answered, and what is used after it.
#[derive(Clone, Copy, Debug, PartialEq, Eq)]
pub struct Outcome {
    pub answer: Answer,
    pub used: u64,
}

/// Puts each answer together with what is used after it, where every other answer tells that.
pub fn outcomes(alloc: Global, answers: &[Answer]) -> Result<Vec<Outcome>, AllocError>
    ensures { IfOk result (λ v. v.items ≡ paired answers.now) }
{
    let mut outcomes = Vec::new(alloc);
    let mut rest = answers;
    while let [answer, Answer::Total(used), others @ ..] = rest {
        outcomes.push(Outcome {
            answer: *answer,
            used: *used,
        })?;
        rest = others;
    }
    Ok(outcomes)
}
