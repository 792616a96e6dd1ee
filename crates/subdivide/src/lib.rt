//! A crease pattern cut at its crossings into vertices and edges.
#![tactic(auto)]

mod bands;
mod cut;
mod early;
mod edge;
mod edges;
mod found;
mod laws;
mod line;
mod lines;
mod live;
mod plan;
mod ranks;
mod stars;
mod strips;
mod sweep;
mod touch;

pub use cut::{Subdivision, scratch};
pub use edge::{CutBad, Edge, EdgeKind, VERTEX_LIMIT};
pub use laws::{
    chains_give_edges, chains_give_vertices, cut_is_one, patterns_give_lines, star_is_of_the_point,
    star_is_one,
};
pub use live::Live;
pub use plan::Plan;

#[cfg(test)]
mod tests;
