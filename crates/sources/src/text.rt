ghost use Rattle.std.specs.Prelude.{◌≡◌};
ghost use Rattle.sources.specs.AsText.{as_text, seen_text};

use crate::fault::Fault;
use crate::reason::Reason;
use std::str::from_utf8;

/// The text that bytes are.
#[tactic(auto, using(crate::proofs::Steps::text_true, crate::proofs::Steps::text_false))]
pub fn text(bytes: &[u8]) -> Result<&str, Fault>
    ensures { seen_text result ≡ as_text bytes.now }
{
    match from_utf8(bytes) {
        Ok(text) => Ok(text),
        Err(_) => Err(Fault::new(Reason::Broken)),
    }
}
