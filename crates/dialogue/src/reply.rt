//! What a command is answered.
use crate::Cause;
use judge::{Fault, Report};
use plane::Point;
use ports::Listed;
use subdivide::Subdivision;
use vocabulary::Name;

/// What a command is answered.
#[derive(Drop)]
pub enum Reply {
    /// The change is made, and the project has this rev.
    Done { rev: u64 },
    /// The lines of a CP text are drawn, so many of them, and so many are dropped; the project has
    /// this rev.
    Imported { rev: u64, drawn: u64, dropped: u64 },
    /// The vertices and edges of a pattern.
    Shown { rev: u64, subdivision: Subdivision },
    /// The vertices of a pattern that cannot be folded flat, ascending.
    Faults { rev: u64, list: Listed<Fault> },
    /// How the paper folds at a vertex.
    Vertex { at: Point, report: Report },
    /// The native text of a pattern, or the CP text or FOLD text of its subdivision.
    Text(Listed<u8>),
    /// The names of all projects, ascending.
    Names(Listed<Name>),
    /// The command is refused, and nothing has changed.
    Refused(Cause),
    /// What keeps the projects failed, and nothing has changed.
    KeeperFailed,
}
