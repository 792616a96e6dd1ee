//! The creases that meet at a point, the sectors between them, and the orders in which the folded
//! sectors may lie on one another.
#![tactic(auto)]

mod order;
mod rules;
mod sector_list;
mod star;
mod tables;

pub use order::Order;
pub use rules::is_order;
pub use sector_list::{Sector, Sectors};
pub use sheet::Mark;
pub use star::{Ray, Star, sectors};

#[cfg(test)]
mod tests;
