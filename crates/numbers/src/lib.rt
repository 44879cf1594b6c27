//! What the crates above count with: an exact fraction here; division rounded up, searches and tests of a
//! whole table in specs/.

#![tactic(auto)]

pub mod units;

/// UNIT-2: an exact fraction, not reduced.
#[derive(Clone, Copy)]
pub struct Fraction {
    pub numerator: u64,
    pub denominator: u64,
}
