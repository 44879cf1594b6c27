//! The speed-flow curve of a kind of road at a free-flow speed, under weather, and what a flow rate gets on
//! it.

#![tactic(auto)]

pub mod kind;
pub mod power;
mod power_table;
pub mod promises;
pub mod service;
pub mod speed;

ghost use Rattle.std.specs.Prelude.{◌≡◌, ◌≤◌};
ghost use Rattle.curve.specs.Kinds.{highest_speed};
ghost use Rattle.curve.specs.Curves.{capacity, breakpoint};
ghost use Rattle.curve.specs.Weather.{FactorsFit, adjusted_speed, curve_under};

use crate::kind::Kind;
use numbers::units::{Capacity, Share, Speed};

/// CURVE-1, CURVE-2: a speed-flow curve by its free-flow speed, capacity and breakpoint.
#[derive(Clone, Copy, PartialEq, Eq)]
pub struct Curve {
    pub kind: Kind,
    pub free_flow_speed: Speed,
    pub capacity: Capacity,
    pub breakpoint: Capacity,
}

/// WEATHER-1: what weather does to a curve. Any number may stand in a field; refusal 19 says which are fit.
#[derive(Clone, Copy, PartialEq, Eq)]
pub struct Weather {
    /// WEATHER-2: on the free-flow speed
    pub speed_factor: Share,
    /// WEATHER-3: on capacity, and squared on the breakpoint
    pub capacity_factor: Share,
}

impl Kind {
    /// CURVE-1: by the ends of the kind.
    #[tactic(auto, unfolding(crate::specs::Curves::capacity))]
    fn capacity(self, speed: Speed) -> Capacity
        requires { speed ≤ highest_speed self }
        ensures { result ≡ capacity self speed }
    {
        let limits = self.limits();
        let by_speed = match self {
            Kind::Freeway => limits.lowest_capacity + speed - limits.lowest_speed,
            Kind::Multilane => limits.lowest_capacity + 2 * speed - 2 * limits.lowest_speed,
        };
        by_speed.min(limits.highest_capacity)
    }

    /// CURVE-2: b.
    #[tactic(auto, unfolding(crate::specs::Curves::breakpoint))]
    fn breakpoint(self, speed: Speed) -> Capacity
        requires { speed ≤ highest_speed self }
        ensures { result ≡ breakpoint self speed }
    {
        match self {
            Kind::Freeway => 400_000 - 4 * speed,
            Kind::Multilane => 140_000,
        }
    }
}

impl Weather {
    /// WEATHER-1: clear weather, both factors 1,000.
    pub const CLEAR: Weather = Weather {
        speed_factor: 1_000,
        capacity_factor: 1_000,
    };

    /// WEATHER-2: F after its factor.
    #[tactic(auto, unfolding(crate::specs::Weather::adjusted_speed))]
    fn adjusted_speed(self, speed: Speed) -> Speed
        requires speed_high { speed ≤ 75000 }
        requires factor_high { self.speed_factor ≤ 1000 }
        ensures { result ≡ adjusted_speed self speed }
    {
        speed * self.speed_factor / 1_000
    }
}

impl Curve {
    /// WEATHER-2, WEATHER-3: the curve of a kind at a free-flow speed before the weather's factor. Capacity
    /// and breakpoint are worked from the speed after it.
    #[tactic(auto, using(crate::proofs::WeatherLaws::curve_laws))]
    pub fn under(weather: Weather, kind: Kind, speed: Speed) -> Curve
        requires speed_high { speed ≤ highest_speed kind }
        requires factors_fit { FactorsFit kind weather }
        ensures { result ≡ curve_under weather kind speed }
    {
        let factor = weather.capacity_factor;
        let adjusted = weather.adjusted_speed(speed);
        Curve {
            kind,
            free_flow_speed: adjusted,
            capacity: kind.capacity(adjusted) * factor / 1_000,
            breakpoint: kind.breakpoint(adjusted) * (factor * factor) / 1_000_000,
        }
    }
}
