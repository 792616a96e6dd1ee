//! The marks of points: whole numbers that tell on which side of most lines they are.
#![tactic(auto)]

mod common;
mod floor;
mod laws;
mod lifted;
mod marks;

pub use common::{common_multiple, is_small};
pub use laws::{
    marks_along_are_one, marks_of_ends_enclose, marks_tell_order, marks_tell_what_ends_left,
    segments_lead_ahead, small_points_cross_within_range, what_ends_left_is_apart,
};
pub use marks::{Marks, row_of};
pub use plane::{Point, Seg};

#[cfg(test)]
mod tests;
