//! The answer to a case with its service volumes, the lanes question, and what is promised of both.

#![tactic(auto)]

pub mod evaluate;
pub mod lanes;
pub mod promises;
