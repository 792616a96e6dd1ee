//! The two ways in which a crease folds.

/// The mark of a crease: mountain or valley.
#[derive(Clone, Copy, Debug, Default, PartialEq, Eq)]
pub enum Mark {
    /// A mountain: the paper folds away from the viewer.
    #[default]
    M,
    /// A valley: the paper folds towards the viewer.
    V,
}
