//! Points, segments in the sixteen directions, and what two segments have in common.
#![tactic(auto)]

mod border;
mod corners;
mod crossing;
mod image;
mod laws;
mod meeting;
mod order;
mod outcome;
mod point;
mod point_text;
mod segment;
mod sides;
mod support;
mod ways;

pub use border::{are_in_sheet, in_sheet, on_border, seg_on_border};
pub use corners::{corner, sheet_sides};
pub use crossing::cross_lines;
pub use image::reflect;
pub use laws::{
    orders_are_of_numbers, point_order_is_of_values, point_order_is_total,
    segment_order_is_of_values, segment_order_is_total, support_is_the_line,
};
pub use meeting::meet;
pub use order::{earlier, is_before, is_same_point, later};
pub use outcome::Meet;
pub use point::Point;
pub use point_text::{put_point, read_point};
pub use segment::{Seg, SegBad, on};
pub use sheet::Sheet;
pub use sides::{are_one_side, is_beside, is_on_line, side};
pub use support::SupportLine;

#[cfg(test)]
mod image_tests;
#[cfg(test)]
mod tests;
