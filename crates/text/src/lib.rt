//! Text: numbers written into a lent buffer, in decimal or as they are; an input of which a part is held, and
//! an output.

#![tactic(auto)]

pub mod buffer;
pub mod decimal;
pub mod promises;
pub mod stream;
