//! What the line of a command asks for.
use crate::who::Who;
use dialogue::Command;
use lattice::Lattice;

/// What the line of a command asks for: a command, or an import of lines that are to come.
#[derive(Drop)]
pub(crate) enum Asked {
    Command(Command),
    Import(ImportLine),
}

/// The line of an import: the project, the lattice, how many lines are to come, and the column of
/// the word that says so.
#[derive(Drop)]
pub(crate) struct ImportLine {
    pub(crate) who: Who,
    pub(crate) lattice: Lattice,
    pub(crate) count: u32,
    pub(crate) column: u64,
}
