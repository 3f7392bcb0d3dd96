ghost use Rattle.std.specs.Prelude.{◌≡◌, ℕ, List, IfSome, true, Result as ResultOf};
ghost use Rattle.std.specs.Char.{digit_value};
ghost use Rattle.std.specs.Str.Parse.{digits_value};
ghost use Rattle.sources.specs.declared.fault.NumberFault.{NumberFault as FaultOf};
ghost use Rattle.sources.specs.declared.fault.NumberFault.TheVariants.{Unreadable};
ghost use Rattle.sources.specs.declared.number.Radix.{Radix as RadixOf};
ghost use Rattle.sources.specs.Number.{base_of, numeral, unsigned, signed, two_of};

use crate::fault::{Fault, NumberFault};
use crate::pieces::{split_once, up_to};
use crate::reason::Reason;
use std::num::ParseIntError;

/// The base in which a number is written.
#[derive(Clone, Copy, PartialEq, Eq, Debug)]
pub enum Radix {
    Octal,
    Decimal,
    Hexadecimal,
}

impl Radix {
    // One match, and no discriminants: bases are asked for here alone.
    fn base(self) -> u32
        ensures { result ≡ base_of self }
    {
        match self {
            Radix::Octal => 8,
            Radix::Decimal => 10,
            Radix::Hexadecimal => 16,
        }
    }
}

/// An integer that a text writes in a base.
pub trait FromStrRadix: Sized {
    // What a base and a text's bytes read as.
    ghost reading: { RadixOf → List ℕ → ResultOf Self FaultOf };

    fn from_str_radix(t: &str, radix: Radix) -> Result<Self, NumberFault>
        ensures { result ≡ reading radix t.now };
}

impl From<ParseIntError> for NumberFault {
    ghost from_gives = { λ _ r. r ≡ Unreadable };

    fn from(_error: ParseIntError) -> NumberFault {
        NumberFault::Unreadable
    }
}

// The value of a digit; of what is none, 36, which is below no base.
fn value_of(digit: u8) -> u64
    ensures { result ≡ digit_value digit }
{
    u64::from(match digit {
        b'0'..=b'9' => digit - b'0',
        b'A'..=b'Z' => digit - b'A' + 10,
        b'a'..=b'z' => digit - b'a' + 10,
        _ => 36,
    })
}

// The number that digits of the base write, where there is nothing but these, and it fits. Most numbers of the kernel's texts are such, and this reads them faster than the library, which sees to signs and to what does not fit.
fn plain(digits: &[u8], radix: Radix) -> Option<u64>
    ensures { IfSome result (λ n. (numeral (base_of radix) digits.now ≡ true) × (digits_value (base_of radix) digits.now ≡ n)) }
{
    if digits.is_empty() {
        return None;
    }
    let base = u64::from(radix.base());
    let mut n: u64 = 0;
    for digit in digits {
        let value = value_of(*digit);
        if value >= base {
            return None;
        }
        n = n.checked_mul(base)?.checked_add(value)?;
    }
    Some(n)
}

// An impl for each type, since std reads each type by a function of that type's own.
impl FromStrRadix for u64 {
    ghost reading = { unsigned 64 };

    fn from_str_radix(t: &str, radix: Radix) -> Result<u64, NumberFault> {
        if let Some(n) = plain(t.as_bytes(), radix) {
            return Ok(n);
        }
        u64::from_str_radix(t, radix.base()).map_err(NumberFault::from)
    }
}

impl FromStrRadix for u32 {
    ghost reading = { unsigned 32 };

    fn from_str_radix(t: &str, radix: Radix) -> Result<u32, NumberFault> {
        if let Some(n) = plain(t.as_bytes(), radix) {
            if let Ok(n) = u32::try_from(n) {
                return Ok(n);
            }
        }
        u32::from_str_radix(t, radix.base()).map_err(NumberFault::from)
    }
}

impl FromStrRadix for i32 {
    ghost reading = { signed 31 };

    fn from_str_radix(t: &str, radix: Radix) -> Result<i32, NumberFault> {
        if let Some(n) = plain(t.as_bytes(), radix) {
            if let Ok(n) = i32::try_from(n) {
                return Ok(n);
            }
        }
        i32::from_str_radix(t, radix.base()).map_err(NumberFault::from)
    }
}

impl FromStrRadix for i64 {
    ghost reading = { signed 63 };

    fn from_str_radix(t: &str, radix: Radix) -> Result<i64, NumberFault> {
        i64::from_str_radix(t, radix.base()).map_err(NumberFault::from)
    }
}

/// Two numbers with `at` between them; what stands behind a second `at` is ignored.
pub fn split_into_num<T: FromStrRadix + Drop>(
    text: &str,
    at: char,
    radix: Radix,
) -> Result<(T, T), Fault>
    ensures { result ≡ two_of (T.FromStrRadix.reading radix) at text.now }
{
    let first = T::from_str_radix(up_to(text, at), radix)?;
    let (_, rest) = split_once(text, at).ok_or(Fault::new(Reason::Short))?;
    let second = T::from_str_radix(up_to(rest, at), radix)?;
    Ok((first, second))
}
