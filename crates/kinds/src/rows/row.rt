ghost use Rattle.std.specs.Prelude.{◌≡◌};
ghost use Rattle.kinds.specs.Rows.Rows.{blank_row, row_of};

use crate::mapping::MemoryMap;
use crate::perms::MMPermissions;
use crate::rows::path::{PathCell, Place, name_at, path_cell};
use sources::fault::Fault;

/// One mapping: its line, the flags of its last `VmFlags` line, and which entries are its attributes.
#[derive(Clone, Copy, PartialEq, Eq, Debug)]
pub struct Row {
    pub address: (u64, u64),
    pub perms: MMPermissions,
    pub offset: u64,
    pub dev: (i32, i32),
    pub inode: u64,
    pub path: PathCell,
    /// a bit for each flag
    pub flags: u32,
    /// the number of its first entry, and how many there are
    pub first: usize,
    pub count: usize,
}

impl Row {
    /// A row of zeros, as refusals leave all cells.
    pub fn blank() -> Row
        ensures { result ≡ blank_row }
    {
        Row {
            address: (0, 0),
            perms: MMPermissions { bits: 0 },
            offset: 0,
            dev: (0, 0),
            inode: 0,
            path: PathCell {
                kind: 0,
                number: 0,
                place: Place {
                    offset: 0,
                    length: 0,
                },
            },
            flags: 0,
            first: 0,
            count: 0,
        }
    }

    // The row of a mapping line that stands behind `before` bytes of text: of no flags, and of no attributes.
    #[tactic(auto, unfolding(crate::specs::Rows::Rows::row_of))]
    pub(crate) fn from_line(line: &str, before: usize) -> Result<Row, Fault>
        ensures { result ≡ row_of before line.now }
    {
        let map = MemoryMap::from_line(line)?;
        let at = before.saturating_add(name_at(line));
        Ok(Row {
            address: map.address,
            perms: map.perms,
            offset: map.offset,
            dev: map.dev,
            inode: map.inode,
            path: path_cell(map.pathname, at),
            flags: 0,
            first: 0,
            count: 0,
        })
    }
}
