//! The colours of creases.

/// The colour of a crease: a mountain, a valley, or an auxiliary line, which does not fold.
#[derive(Clone, Copy, Debug, PartialEq, Eq, PartialOrd, Ord, Hash)]
pub enum Colour {
    M,
    V,
    A,
}
