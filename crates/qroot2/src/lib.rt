//! Exact numbers of the form (a + b √2) / d, and the sixteen directions.
#![tactic(auto)]

mod dir;
mod floor;
mod laws;
mod lowest;
mod num;
mod sign;
mod squares;
#[cfg(test)]
mod tests;
mod text;
mod wide;
mod written;

pub use dir::Dir;
pub use laws::{
    equality_is_of_values, num_order_is_exact, num_order_is_of_values, num_order_is_total,
    text_is_of_one_number,
};
pub use lowest::Lowest;
pub use num::Num;
pub use sign::Sign;
pub use text::{NumText, read_num};
pub use wide::Wide;
pub use written::put_num;
