//! The accepted case: its curve, its flow rate, and what a demand gets on it.

#![tactic(auto)]

pub mod accepted;
pub mod checked;
pub mod flow;
pub mod promises;
