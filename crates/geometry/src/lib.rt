//! Lines, directions and what two segments have in common: the geometry of exact points.
#![tactic(auto)]

mod laws;

pub use laws::{one_common_point, sides_decide};
