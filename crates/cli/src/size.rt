// How a number of bytes is printed.
ghost use Rattle.std.specs.Prelude.{◌≡◌, ◌<◌, ◌≤◌, ◌^◌, [], Some, MatchOption};
ghost use Rattle.cli.specs.Size.{in_unit, readable, size_text};

use std::fmt;
use std::fmt::{Display, Formatter};

const KIB: u128 = 1 << 10;

const MIB: u128 = 1 << 20;

const GIB: u128 = 1 << 30;

const TIB: u128 = 1 << 40;

const PIB: u128 = 1 << 50;

const EIB: u128 = 1 << 60;

// The largest unit that a number of bytes has one of, and its name.
fn unit_of(bytes: u128) -> Option<(u128, &'static str)>
    ensures { MatchOption result (readable bytes ≡ []) (λ u. (0 < u.0) × (u.0 ≤ 2 ^ 60) × (readable bytes ≡ in_unit u.0 u.1.now bytes)) }
{
    match bytes {
        EIB.. => Some((EIB, "EiB")),
        PIB.. => Some((PIB, "PiB")),
        TIB.. => Some((TIB, "TiB")),
        GIB.. => Some((GIB, "GiB")),
        MIB.. => Some((MIB, "MiB")),
        KIB.. => Some((KIB, "KiB")),
        _ => None,
    }
}

/// A number of bytes, and in parentheses the same in the largest unit that it has one of: `3897344 (3.7 MiB)`.
#[derive(Clone, Copy, Debug, PartialEq, Eq)]
pub struct Size(pub u128);

impl Display for Size {
    ghost output = { λ s. Some (size_text s.0) };

    fn fmt<W: fmt::Write>(&self, f: &mut Formatter<W>) -> fmt::Result {
        let bytes = self.0;
        match unit_of(bytes) {
            Some((unit, name)) => {
                let whole = bytes / unit;
                let tenths = bytes % unit * 10 / unit;
                write!(f, "{bytes} ({whole}.{tenths} {name})")
            }
            None => write!(f, "{bytes}"),
        }
    }
}
