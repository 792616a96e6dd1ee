//! Commands: questions, a new project, and changes of one.
use edits::Edit;
use lattice::Lattice;
use plane::Point;
use ports::Listed;
use sheet::Sheet;
use vocabulary::Name;

/// A change of a project.
#[derive(Drop)]
pub enum Change {
    /// An edit of its pattern.
    Edit(Edit),
    /// Draws the lines of a CP text, one after another, by a lattice of numbers.
    Import { lattice: Lattice, text: Listed<u8> },
    /// Takes back the last change that was not taken back.
    Undo,
    /// Makes the change again that was taken back last.
    Redo,
}

/// What an editor of projects is told to do or asked.
#[derive(Drop)]
pub enum Command {
    /// A new project of this name on this sheet, without creases.
    New {
        name: Name,
        sheet: Sheet,
    },
    /// Which projects there are.
    List,
    /// The vertices and the edges of a pattern.
    Show {
        name: Name,
    },
    /// Which vertices of a pattern cannot be folded flat.
    Faults {
        name: Name,
    },
    /// How the paper folds at a vertex.
    Vertex {
        name: Name,
        at: Point,
    },
    /// The native text of a pattern.
    PatternText {
        name: Name,
    },
    /// The subdivision of a pattern as CP text.
    CpText {
        name: Name,
    },
    /// The subdivision of a pattern as FOLD text.
    FoldText {
        name: Name,
    },
    /// A change, which is refused where a rev is given and the project has another. A rev that is
    /// given is at most [`LAST_REV`](vocabulary::LAST_REV).
    Change {
        name: Name,
        rev: Option<u64>,
        change: Change,
    },
}
