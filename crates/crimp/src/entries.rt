//! The sectors as a list that is being crimped.
ghost use Rattle.std.specs.Prelude.{◌≡◌, ◌<◌, ◌≤◌, length};
ghost use Rattle.layers.specs.Sectors.{sector_at};
ghost use Rattle.crimp.specs.Cycle.{entry_for, numbered as numbered_from};

use arrayvec::ArrayVec;
use layers::{Mark, Sector};

/// A sector in a list that is being crimped: its number in the star, the mark of the crease at
/// which it begins, and its angle.
#[derive(Clone, Copy, Debug, Default, PartialEq, Eq)]
pub(crate) struct Entry {
    pub(crate) number: u8,
    pub(crate) mark: Mark,
    pub(crate) angle: u8,
}

/// Sector `i` with its number.
fn entry_of(sectors: &[Sector], i: usize) -> Entry
    requires within { i < length sectors.now }
    requires few { length sectors.now ≤ 16 }
    ensures { result ≡ entry_for i (sector_at sectors.now i) }
{
    Entry {
        number: i as u8,
        mark: sectors[i].mark,
        angle: sectors[i].angle,
    }
}

/// The sectors with their numbers.
pub(crate) fn numbered(sectors: &[Sector]) -> ArrayVec<Entry, 16>
    requires { length sectors.now ≤ 16 }
    ensures { result.items ≡ numbered_from 0 sectors.now }
{
    let mut entries = ArrayVec::new();
    for i in 0..sectors.len() {
        entries.push(entry_of(sectors, i));
    }
    entries
}
