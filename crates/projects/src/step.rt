//! Steps of a project.
use pattern::Delta;

/// A step of a project from one pattern to the next.
#[derive(Drop)]
pub enum Step {
    /// Takes a delta.
    Do(Delta),
    /// Takes the last delta back.
    Undo,
    /// Takes the next delta again.
    Redo,
}
