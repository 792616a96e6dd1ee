//! What the router keeps for each path.

/// Which of the nine paths a path is.
#[derive(Clone, Copy, Debug, PartialEq, Eq)]
pub(crate) enum Page {
    Projects,
    Project,
    Faults,
    Pattern,
    Cp,
    Fold,
    Vertex,
    Edits,
    Sheet,
}
