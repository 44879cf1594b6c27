//! Lines: a line of 13 or 15 fields parted by tabs, read as the case that it describes.

#![tactic(auto)]

pub(crate) mod field;
pub mod promises;
pub mod read;
