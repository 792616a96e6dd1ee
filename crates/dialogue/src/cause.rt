//! Why a command is refused.
use cpfile::CpBad;
use edits::EditBad;
use subdivide::CutBad;

/// Why a command is refused. Then nothing has changed.
#[derive(Clone, Copy, Debug, PartialEq, Eq)]
pub enum Cause {
    /// No project has the name.
    NoProject,
    /// A project has the name already.
    Exists,
    /// The pattern cannot be cut within the limits, or the one to which the change leads cannot.
    Cut(CutBad),
    /// A rev was given, and the project has this one.
    Stale { rev: u64 },
    /// The project has the greatest rev.
    RevFull,
    /// No change is left that could be taken back.
    NothingToUndo,
    /// No change was taken back that could be made again.
    NothingToRedo,
    /// The CP text is refused.
    Cp(CpBad),
    /// The edit is refused.
    Edit(EditBad),
    /// The point is no vertex of the pattern.
    NoVertex,
}
