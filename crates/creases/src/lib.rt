//! Creases of which no two overlap, found by their segments and by the lines on which they lie.
#![tactic(auto)]

mod crease;
mod index;
mod iter;
mod map;
mod place;

pub use crease::Crease;
pub use iter::{Creases, Overlapping};
pub use map::CreaseMap;

#[cfg(test)]
mod tests;
