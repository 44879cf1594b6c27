//! A road, its load and its weather, what refuses them, and the free-flow speed of a road that is fit.

#![tactic(auto)]

mod adjustment;
pub mod free_flow;
pub mod promises;
mod ramp;
mod ramp_table;
pub mod refusal;

ghost use Rattle.std.specs.Prelude.{◌≡◌};
ghost use Rattle.road.specs.Cases.{with_demand, with_load};

use curve::Weather;
use curve::kind::Kind;
use numbers::units::{Demand, Length, Share, Speed};

/// CASE-1, FFS-1: where free-flow speed comes from: estimated from a base speed (E), or given (G).
#[derive(Clone, Copy, PartialEq, Eq)]
pub enum Way {
    Estimated,
    Given,
}

/// CASE-1: what parts the two directions: nothing (U), a median (D) or a two-way left-turn lane (T).
#[derive(Clone, Copy, PartialEq, Eq)]
pub enum Median {
    Undivided,
    Divided,
    TwoWayLeftTurnLane,
}

/// CASE-2, FLOW-1: general terrain: level (L) or rolling (R).
#[derive(Clone, Copy, PartialEq, Eq)]
pub enum Terrain {
    Level,
    Rolling,
}

/// CASE-1: a road in one direction: what is equal on the same road. Any number may stand in a field; refusals
/// 1 to 5 say which are fit.
#[derive(Clone, Copy, PartialEq, Eq)]
pub struct Road {
    pub kind: Kind,
    pub way: Way,
    /// free-flow speed or base speed
    pub speed: Speed,
    pub lane_width: Length,
    pub right_clearance: Length,
    pub left_clearance: Length,
    pub median: Median,
    /// kind F: ramps in six miles; kind M: access points per mile
    pub access: u64,
}

/// CASE-2: a road with its lanes, its load and the weather. Any number may stand in a field; refusals 1 to 10
/// and 19 say which are fit.
#[derive(Clone, Copy, PartialEq, Eq)]
pub struct Case {
    pub road: Road,
    /// in one direction
    pub lanes: u64,
    pub demand: Demand,
    pub peak_hour_factor: Share,
    pub heavy_share: Share,
    pub terrain: Terrain,
    pub weather: Weather,
}

impl Case {
    /// CASE-3: the case with a demand in the place of its own.
    pub fn with_demand(self, demand: Demand) -> Case
        ensures { result ≡ with_demand self demand }
    {
        Case { demand, ..self }
    }

    /// CASE-3: the case with a demand, a peak-hour factor and a heavy share in the place of its own.
    pub fn with_load(self, demand: Demand, peak_hour_factor: Share, heavy_share: Share) -> Case
        ensures { result ≡ with_load self demand peak_hour_factor heavy_share }
    {
        Case {
            demand,
            peak_hour_factor,
            heavy_share,
            ..self
        }
    }
}
