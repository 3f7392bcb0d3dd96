ghost use Rattle.std.specs.Prelude.{◌≡◌, ℕ, List, Result as ResultOf};
ghost use Rattle.sources.specs.declared.fault.NumberFault.{NumberFault as FaultOf};
ghost use Rattle.sources.specs.declared.number.Radix.{Radix as RadixOf};
ghost use Rattle.sources.specs.declared.number.Radix.TheVariants as radix;
ghost use Rattle.fields.specs.Items.{range_of};

use sources::fault::NumberFault;
use sources::number::{FromStrRadix, Radix};
use sources::pieces::{split_once, up_to};
use std::marker::PhantomData;

/// What an item of a list means: a value, or a fault, for each piece of text. A type and no closure, so that contracts name its meaning.
pub trait Item {
    type Value: Copy + Default;

    ghost reading: { List ℕ → ResultOf Self.Value FaultOf };

    fn read(piece: &str) -> Result<Self::Value, NumberFault>
        ensures { result ≡ reading piece.now };
}

/// A base of numbers, as a type, since a const parameter is a number or a `bool`.
pub trait Base {
    ghost RADIX: { RadixOf };

    const RADIX: Radix;
}

/// Base 10.
pub struct Decimal;

impl Base for Decimal {
    ghost RADIX = { radix.Decimal };

    const RADIX: Radix = Radix::Decimal;
}

/// Base 16.
pub struct Hexadecimal;

impl Base for Hexadecimal {
    ghost RADIX = { radix.Hexadecimal };

    const RADIX: Radix = Radix::Hexadecimal;
}

/// A number in a base.
pub struct Figure<T, B>(PhantomData<(T, B)>);

impl<T: FromStrRadix + Copy + Default, B: Base> Item for Figure<T, B> {
    type Value = T;

    ghost reading = { T.FromStrRadix.reading B.Base.RADIX };

    fn read(piece: &str) -> Result<T, NumberFault> {
        T::from_str_radix(piece, B::RADIX)
    }
}

/// A group.
pub type Group = Figure<u32, Decimal>;

/// A process in a name space.
pub type Process = Figure<i32, Decimal>;

/// 32 bits of a mask.
pub type Word = Figure<u32, Hexadecimal>;

/// A range, from its first number to its last.
pub struct Range;

impl Item for Range {
    type Value = (u32, u32);

    ghost reading = { range_of };

    fn read(piece: &str) -> Result<(u32, u32), NumberFault> {
        // Without a hyphen the first number is the last too.
        let (first, last) = split_once(piece, '-').unwrap_or((piece, piece));
        Ok((
            <u32 as FromStrRadix>::from_str_radix(first, Radix::Decimal)?,
            <u32 as FromStrRadix>::from_str_radix(up_to(last, '-'), Radix::Decimal)?,
        ))
    }
}
