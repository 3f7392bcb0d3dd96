ghost use Rattle.std.specs.Prelude.{◌≡◌};
ghost use Rattle.capi.specs.Words.{reason_of, word_in};

use sources::reason::Reason;

const REASONS: [Reason; 22] = [
    Reason::Broken,
    Reason::LongLine,
    Reason::LongText,
    Reason::Orphan,
    Reason::Short,
    Reason::Figure,
    Reason::Value,
    Reason::Torn,
    Reason::Scale,
    Reason::Heavy,
    Reason::Absent,
    Reason::Full,
    Reason::State,
    Reason::Pid,
    Reason::Present,
    Reason::Unknown,
    Reason::Packed,
    Reason::Over,
    Reason::Sum,
    Reason::Bracket,
    Reason::Key,
    Reason::Spool,
];

#[tactic(auto, unfolding(crate::specs::Words::reason_of))]
fn reason(number: u32) -> Option<Reason>
    ensures { result ≡ reason_of number }
{
    REASONS
        .iter()
        .find(|reason| u32::from(reason.number()) == number)
        .copied()
}

/// The word of a refusal's number, or no letters.
#[tactic(auto, unfolding(crate::specs::Words::word_in))]
pub fn word(number: u32) -> &'static str
    ensures { result.now ≡ word_in number }
{
    match reason(number) {
        None => "",
        Some(reason) => reason.word(),
    }
}
