ghost use Rattle.std.specs.Prelude.{◌≡◌};
ghost use Rattle.kinds.specs.Mapping.{mapping_of, piece as piece_of, seen_map, seen_piece};

use crate::path::MMapPath;
use crate::perms::MMPermissions;
use sources::fault::Fault;
use sources::number::{FromStrRadix, Radix, split_into_num};
use sources::pieces::split_once;
use sources::reason::Reason;

/// One mapping, as its line says it.
#[derive(Clone, Copy, PartialEq, Eq, Debug)]
pub struct MemoryMap<'a> {
    pub address: (u64, u64),
    pub perms: MMPermissions,
    pub offset: u64,
    pub dev: (i32, i32),
    pub inode: u64,
    pub pathname: MMapPath<'a>,
}

// Up to the first space, and what follows it. A call a piece, and no `splitn`, since each missing piece is refused by `?`.
fn piece(text: &str) -> Result<(&str, &str), Fault>
    ensures { seen_piece result ≡ piece_of text.now }
{
    split_once(text, ' ').ok_or(Fault::new(Reason::Short))
}

impl<'a> MemoryMap<'a> {
    /// The name is procfs-core's.
    pub fn from_line(line: &'a str) -> Result<MemoryMap<'a>, Fault>
        ensures { seen_map result ≡ mapping_of line.now }
    {
        let (address, rest) = piece(line)?;
        let (perms, rest) = piece(rest)?;
        let (offset, rest) = piece(rest)?;
        let (dev, rest) = piece(rest)?;
        let (inode, path) = piece(rest)?;
        Ok(MemoryMap {
            address: split_into_num(address, '-', Radix::Hexadecimal)?,
            perms: MMPermissions::from_letters(perms),
            offset: FromStrRadix::from_str_radix(offset, Radix::Hexadecimal)?,
            dev: split_into_num(dev, ':', Radix::Hexadecimal)?,
            inode: FromStrRadix::from_str_radix(inode, Radix::Decimal)?,
            pathname: MMapPath::from(path)?,
        })
    }
}
