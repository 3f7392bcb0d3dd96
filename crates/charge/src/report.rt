ghost use Rattle.std.specs.Prelude.{◌≡◌, Ok, Err, Some};
ghost use Rattle.charge.specs.Report.{report_of, line_of};

use kinds::measure::{Closed, Figures, measure};
use sources::fault::Refusal;
use sources::held::Held;
use sources::reason::Reason;
use std::fmt;

// The longest input.
pub const LONGEST: usize = 65536;

// What an input is charged for.
#[derive(Drop)]
pub struct Charged(pub Closed);

// Why an input is not charged.
#[derive(Drop)]
pub struct Refused(pub Refusal);

impl fmt::Display for Charged {
    ghost output = { λ c. Some (line_of (Ok c)) };

    fn fmt<W: fmt::Write>(&self, f: &mut fmt::Formatter<W>) -> fmt::Result {
        let mappings = self.0.mappings();
        let Figures { rss, pss, swap_pss } = self.0.totals();
        write!(
            f,
            "mappings {mappings} rss {rss} pss {pss} swappss {swap_pss}"
        )
    }
}

impl fmt::Display for Refused {
    ghost output = { λ r. Some (line_of (Err r)) };

    fn fmt<W: fmt::Write>(&self, f: &mut fmt::Formatter<W>) -> fmt::Result {
        write!(f, "refused {} line {}", self.0.reason.number(), self.0.line)
    }
}

impl From<Refusal> for Refused {
    ghost from_gives = { λ f r. r ≡ record { 0 = f } };

    fn from(refusal: Refusal) -> Refused {
        Refused(refusal)
    }
}

// The charge of an input, read as smaps text.
pub fn charge(input: &[u8]) -> Result<Charged, Refused>
    ensures { result ≡ report_of input.now }
{
    if input.len() > LONGEST {
        return Err(Refused(Refusal::new(Reason::LongText, 0)));
    }
    Ok(Charged(measure(&mut Held::new(input))?))
}

#[cfg(test)]
mod tests {
    use super::*;
    use std::alloc::{AllocError, Global};
    use std::test::Fail;

    // The line that is printed of an input of `n` bytes 65, and then `end`.
    fn printed(heap: Global, n: usize, end: &[u8]) -> Result<String, AllocError> {
        let mut input = vec![in heap; b'A'; n]?;
        input.extend_from_slice(end)?;
        match charge(input.as_slice()) {
            Ok(charged) => charged.to_string(heap),
            Err(refused) => refused.to_string(heap),
        }
    }

    #[test]
    fn lines(rt: HostRuntime) -> Result<(), Fail> {
        let heap = rt.alloc();
        assert_eq!(rt;
            printed(heap, 0, b"")?.as_str(),
            "mappings 0 rss 0 pss 0 swappss 0"
        );
        assert_eq!(rt;
            printed(heap, 1, b"000-B000 r--p 00000000 08:01 77 /a")?.as_str(),
            "refused 4 line 1"
        );
        assert_eq!(rt; printed(heap, 65536, b"")?.as_str(), "refused 2 line 1");
        assert_eq!(rt; printed(heap, 65537, b"")?.as_str(), "refused 3 line 0");
        Ok(())
    }
}
