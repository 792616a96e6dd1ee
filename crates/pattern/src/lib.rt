//! Crease patterns on the sheet, and their native text.
#![tactic(auto)]

mod apart;
mod collect;
mod delta;
mod difference;
mod fits;
mod laws;
mod native;
mod pattern;
mod recolour;
mod step;

pub use creases::{Crease, CreaseMap, Creases, Overlapping};
pub use delta::Delta;
pub use difference::between;
pub use laws::{
    delta_leads_to_one, inverse_leads_back, line_is_crease_text, reading_is_one, refusal_is_one,
    text_is_of_one_crease, text_is_of_one_delta, text_is_of_one_pattern, text_is_of_one_seg,
};
pub use native::{
    PatternBad, PatternWhy, delta_bytes, pattern_bytes, put_crease, put_seg, read_crease,
    read_delta, read_pattern, read_seg,
};
pub use pattern::Pattern;
pub use sheet::Colour;

#[cfg(test)]
mod delta_tests;
#[cfg(test)]
mod tests;
#[cfg(test)]
mod text_tests;
