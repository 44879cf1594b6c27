//! How far the shown multilane speed is below the manual's curve: theorems, and no code.

#![tactic(auto)]

pub mod promises;
