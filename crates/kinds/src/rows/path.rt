ghost use Rattle.std.specs.Prelude.{◌≡◌};
ghost use Rattle.kinds.specs.Path.{told};
ghost use Rattle.kinds.specs.Rows.Paths.{after_space, path_piece, name_at, path_cell, nowhere, further};

use crate::path::MMapPath;
use sources::pieces::{split_once, trimmed_start};

/// Where bytes stand in the whole text.
#[derive(Clone, Copy, PartialEq, Eq, Debug)]
pub struct Place {
    pub offset: usize,
    pub length: usize,
}

/// A path, as numbers: its case, from 0 in the order of `MMapPath`; the thread or the key that it has, else 0; and where its name stands, else nowhere.
#[derive(Clone, Copy, PartialEq, Eq, Debug)]
pub struct PathCell {
    pub kind: u8,
    pub number: i64,
    pub place: Place,
}

// What stands behind the first space, if there is one.
fn after_space(text: &str) -> &str
    ensures { result.now ≡ after_space text.now }
{
    split_once(text, ' ').map_or("", |(_, rest)| rest)
}

// The sixth piece of a mapping line.
fn path_piece(line: &str) -> &str
    ensures { result.now ≡ path_piece line.now }
{
    let perms = after_space(line);
    let offset = after_space(perms);
    let dev = after_space(offset);
    let inode = after_space(dev);
    after_space(inode)
}

// How many bytes of a mapping line stand before the name of its path. Nothing that is left of a line is longer than the line, so the difference is never cut at 0.
#[tactic(auto, unfolding(crate::specs::Rows::Paths::name_at))]
pub(crate) fn name_at(line: &str) -> usize
    ensures { result ≡ name_at line.now }
{
    line.len()
        .saturating_sub(trimmed_start(path_piece(line)).len())
}

// A case of a path without a name.
fn plain(kind: u8, number: i64) -> PathCell
    ensures { result ≡ nowhere kind number }
{
    PathCell {
        kind,
        number,
        place: Place {
            offset: 0,
            length: 0,
        },
    }
}

// A case of a path with a name.
fn named(kind: u8, offset: usize, name: &str) -> PathCell
    ensures { result ≡ Rattle.kinds.specs.Rows.Paths.named kind offset name.now }
{
    PathCell {
        kind,
        number: 0,
        place: Place {
            offset,
            length: name.len(),
        },
    }
}

// The cell of a path that begins at `at` in the text.
pub(crate) fn path_cell(path: MMapPath, at: usize) -> PathCell
    ensures { result ≡ path_cell at (told path.entry) }
{
    match path {
        MMapPath::Path(name) => named(0, at, name),
        MMapPath::Heap => plain(1, 0),
        MMapPath::Stack => plain(2, 0),
        MMapPath::TStack(thread) => plain(3, i64::from(thread)),
        MMapPath::Vdso => plain(4, 0),
        MMapPath::Vvar => plain(5, 0),
        MMapPath::Vsyscall => plain(6, 0),
        MMapPath::Rollup => plain(7, 0),
        MMapPath::Anonymous => plain(8, 0),
        MMapPath::Vsys(key) => plain(9, i64::from(key)),
        MMapPath::Other(name) => named(10, at.saturating_add(1), name),
    }
}
