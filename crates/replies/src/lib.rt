//! Replies: an answer written as text, and the lines of a block and of an input answered.

#![tactic(auto)]

pub mod block;
pub mod promises;
pub mod stream;
pub mod write;
