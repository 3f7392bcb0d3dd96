ghost use Rattle.std.specs.Prelude.{◌≡◌};
ghost use Rattle.limits.specs.declared.limit.LimitValue.TheVariants.{Value};
ghost use Rattle.limits.specs.Values.{value_of, limit_of};

use sources::fault::Fault;
use sources::number::{FromStrRadix, Radix};
use std::str::FromStr;

/// How far a process may go, or that there is no bound.
/// An `Option<u64>` would say as much; procfs-core has this enum.
#[derive(Clone, Copy, PartialEq, Eq, Debug)]
pub enum LimitValue {
    Unlimited,
    Value(u64),
}

/// The bound that counts, and the one up to which a process may raise it.
#[derive(Clone, Copy, PartialEq, Eq, Debug, Default)]
pub struct Limit {
    pub soft_limit: LimitValue,
    pub hard_limit: LimitValue,
}

// The number 0: what is blank allows nothing.
impl Default for LimitValue {
    ghost is_default = { λ v. v ≡ Value 0 };

    fn default() -> LimitValue {
        LimitValue::Value(0)
    }
}

// The word "unlimited", or a number of 64 bits.
impl FromStr for LimitValue {
    type Err = Fault;

    ghost from_str_gives = { λ word r. r ≡ value_of word };

    fn from_str(word: &str) -> Result<LimitValue, Fault> {
        if word == "unlimited" {
            return Ok(LimitValue::Unlimited);
        }
        let bound = <u64 as FromStrRadix>::from_str_radix(word, Radix::Decimal)?;
        Ok(LimitValue::Value(bound))
    }
}

impl Limit {
    /// The soft limit is judged first. Of two texts, and so no `From`.
    pub fn from_pair(soft: &str, hard: &str) -> Result<Limit, Fault>
        ensures { result ≡ limit_of soft.now hard.now }
    {
        Ok(Limit {
            soft_limit: soft.parse()?,
            hard_limit: hard.parse()?,
        })
    }
}
