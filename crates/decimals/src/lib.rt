//! Decimals: whole numbers of units of 10^-12, and their texts.
#![tactic(auto)]

mod cut;
mod exponent;
mod laws;
mod point;
mod read;
mod size;
#[cfg(test)]
mod tests;
mod written;
#[cfg(test)]
mod written_tests;

pub use laws::{a_decimal_has_one_value, a_written_decimal_is_read, decimal_points_are_one};
pub use point::{DecimalPoint, decimal_points};
pub use read::read_decimal;
pub use written::put_decimal;
