//! KIND-1: the two kinds of road, and the constants that each carries.

ghost use Rattle.std.specs.Prelude.{◌≡◌};
ghost use Rattle.curve.specs.Kinds.{lowest_speed, highest_speed, lowest_adjusted_speed, lowest_factor, fewest_lanes, most_lanes};
ghost use Rattle.curve.specs.Kinds.{lowest_capacity, highest_capacity};

use numbers::units::{Capacity, Share, Speed};

/// KIND-1, FORM-7: kind F, a basic freeway segment, with its ends as associated constants.
#[derive(Clone, Copy)]
pub struct Freeway;

impl Freeway {
    /// KIND-1, REFUSAL-10: the lower end of F, thousandths of mi/h.
    pub const LOWEST_SPEED: Speed = 55_000;
    /// KIND-1, FFS-10: the upper end of F, thousandths of mi/h.
    pub const HIGHEST_SPEED: Speed = 75_000;
    /// KIND-1, REFUSAL-10: the lower end of F after the speed factor, thousandths of mi/h.
    pub const LOWEST_ADJUSTED_SPEED: Speed = 50_000;
    /// KIND-1, WEATHER-1: the lower end of the weather's factors, thousandths.
    pub const LOWEST_FACTOR: Share = 500;
    /// KIND-1: the fewest lanes in one direction.
    pub const FEWEST_LANES: u64 = 2;
    /// KIND-1: the most lanes in one direction.
    pub const MOST_LANES: u64 = 8;
    /// KIND-1, CURVE-1: capacity in clear weather at the lower end of F, hundredths of passenger cars per
    /// hour per lane.
    pub const LOWEST_CAPACITY: Capacity = 225_000;
    /// KIND-1, CURVE-1: capacity in clear weather at the upper end of F.
    pub const HIGHEST_CAPACITY: Capacity = 240_000;

    const LIMITS: Limits = Limits {
        lowest_speed: Self::LOWEST_SPEED,
        highest_speed: Self::HIGHEST_SPEED,
        lowest_adjusted_speed: Self::LOWEST_ADJUSTED_SPEED,
        lowest_factor: Self::LOWEST_FACTOR,
        fewest_lanes: Self::FEWEST_LANES,
        most_lanes: Self::MOST_LANES,
        lowest_capacity: Self::LOWEST_CAPACITY,
        highest_capacity: Self::HIGHEST_CAPACITY,
    };
}

/// KIND-1, FORM-7: kind M, a multilane highway, with its ends as associated constants.
#[derive(Clone, Copy)]
pub struct Multilane;

impl Multilane {
    /// KIND-1, REFUSAL-10: the lower end of F, thousandths of mi/h.
    pub const LOWEST_SPEED: Speed = 45_000;
    /// KIND-1, FFS-10: the upper end of F, thousandths of mi/h.
    pub const HIGHEST_SPEED: Speed = 70_000;
    /// KIND-1, REFUSAL-10: the lower end of F after the speed factor, thousandths of mi/h.
    pub const LOWEST_ADJUSTED_SPEED: Speed = 45_000;
    /// KIND-1, WEATHER-1: the lower end of the weather's factors, thousandths.
    pub const LOWEST_FACTOR: Share = 1_000;
    /// KIND-1: the fewest lanes in one direction.
    pub const FEWEST_LANES: u64 = 2;
    /// KIND-1: the most lanes in one direction.
    pub const MOST_LANES: u64 = 3;
    /// KIND-1, CURVE-1: capacity in clear weather at the lower end of F, hundredths of passenger cars per
    /// hour per lane.
    pub const LOWEST_CAPACITY: Capacity = 190_000;
    /// KIND-1, CURVE-1: capacity in clear weather at the upper end of F.
    pub const HIGHEST_CAPACITY: Capacity = 230_000;

    const LIMITS: Limits = Limits {
        lowest_speed: Self::LOWEST_SPEED,
        highest_speed: Self::HIGHEST_SPEED,
        lowest_adjusted_speed: Self::LOWEST_ADJUSTED_SPEED,
        lowest_factor: Self::LOWEST_FACTOR,
        fewest_lanes: Self::FEWEST_LANES,
        most_lanes: Self::MOST_LANES,
        lowest_capacity: Self::LOWEST_CAPACITY,
        highest_capacity: Self::HIGHEST_CAPACITY,
    };
}

/// KIND-1: a kind's constants, for code that has the kind as a value.
#[derive(Clone, Copy)]
pub struct Limits {
    pub lowest_speed: Speed,
    pub highest_speed: Speed,
    pub lowest_adjusted_speed: Speed,
    pub lowest_factor: Share,
    pub fewest_lanes: u64,
    pub most_lanes: u64,
    pub lowest_capacity: Capacity,
    pub highest_capacity: Capacity,
}

/// KIND-1: one of the two kinds.
#[derive(Clone, Copy, PartialEq, Eq)]
pub enum Kind {
    Freeway,
    Multilane,
}

impl Kind {
    /// KIND-1, FORM-7: the constants of the kind.
    pub fn limits(self) -> Limits
        ensures lowest_speed { result.lowest_speed ≡ lowest_speed self }
        ensures highest_speed { result.highest_speed ≡ highest_speed self }
        ensures lowest_adjusted_speed { result.lowest_adjusted_speed ≡ lowest_adjusted_speed self }
        ensures lowest_factor { result.lowest_factor ≡ lowest_factor self }
        ensures fewest_lanes { result.fewest_lanes ≡ fewest_lanes self }
        ensures most_lanes { result.most_lanes ≡ most_lanes self }
        ensures lowest_capacity { result.lowest_capacity ≡ lowest_capacity self }
        ensures highest_capacity { result.highest_capacity ≡ highest_capacity self }
    {
        match self {
            Kind::Freeway => Freeway::LIMITS,
            Kind::Multilane => Multilane::LIMITS,
        }
    }
}
