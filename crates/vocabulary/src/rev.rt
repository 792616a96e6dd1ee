//! How often a project was changed.

/// The greatest rev that a project can have. A rev says how often a project was changed.
pub const LAST_REV: u64 = 1_000_000_000_000;
