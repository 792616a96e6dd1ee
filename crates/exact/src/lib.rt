//! What exact numbers, points and segments are, and the laws of their order.
#![tactic(auto)]

mod laws;

pub use laws::{
    canonical_is_unique, comparison_tells_order, has_side, order_is_kept_by_adding,
    order_is_kept_by_positive_factor, order_is_of_values, order_is_strict, order_is_total,
    order_is_transitive, same_is_equality, turns_by_angle,
};
