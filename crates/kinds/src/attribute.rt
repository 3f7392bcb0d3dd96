ghost use Rattle.std.specs.Prelude.{◌≡◌};
ghost use Rattle.kinds.specs.Attribute.{bare as bare_of, entry_of, scaled as scaled_of, amount_of, seen_entry};

use sources::fault::Fault;
use sources::number::{FromStrRadix, Radix};
use sources::pieces::strip_suffix;
use sources::reason::Reason;
use sources::words::{has_word, next_word};

/// What an attribute's line says of its mapping.
#[derive(Clone, Copy, PartialEq, Eq, Debug)]
pub struct Attribute<'a> {
    pub key: &'a str,
    pub amount: u64,
}

// The word without its trailing colons.
#[tactic(auto, using(crate::proofs::Colons::colon_cut, crate::proofs::Colons::no_colon))]
fn bare(word: &str) -> &str
    ensures { result.now ≡ bare_of word.now }
{
    let mut rest = word;
    while let Some(front) = strip_suffix(rest, ":") {
        rest = front;
    }
    rest
}

fn amount(word: &str) -> Result<u64, Fault>
    ensures { result ≡ amount_of word.now }
{
    FromStrRadix::from_str_radix(word, Radix::Decimal).map_err(|_| Fault::new(Reason::Value))
}

// The number, times 1024 where it has a unit.
fn scaled(n: u64, unit: bool) -> Result<u64, Fault>
    ensures { result ≡ scaled_of n unit }
{
    if !unit {
        return Ok(n);
    }
    n.checked_mul(1024).ok_or(Fault::new(Reason::Scale))
}

impl<'a> Attribute<'a> {
    /// What the line says, if it has two words.
    pub fn from_line(line: &'a str) -> Result<Option<Attribute<'a>>, Fault>
        ensures { seen_entry result ≡ entry_of line.now }
    {
        let Some((key, rest)) = next_word(line) else {
            return Ok(None);
        };
        let Some((value, rest)) = next_word(rest) else {
            return Ok(None);
        };
        let amount = scaled(amount(value)?, has_word(rest))?;
        Ok(Some(Attribute {
            key: bare(key),
            amount,
        }))
    }
}
