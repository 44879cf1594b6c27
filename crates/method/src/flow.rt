//! FLOW-2: the flow rate of a demand, by the load of a case.

ghost use Rattle.std.specs.Prelude.{◌≡◌, ◌≤◌};
ghost use Rattle.curve.specs.Kinds.{fewest_lanes, most_lanes};
ghost use Rattle.road.specs.Refusals.{greatest_demand, LoadFits};
ghost use Rattle.method.specs.Flow.{truck_equivalent, load_of, flow_rate_of, LoadSized};

use numbers::units::{Demand, FlowRate, Share};
use road::refusal::FitCase;
use road::{Case, Terrain};

/// FLOW-2: what turns a demand into a flow rate.
#[derive(Clone, Copy)]
pub struct Load {
    /// FLOW-1: what a vehicle counts for, of a passenger car
    pub heavy_factor: Share,
    /// peak-hour factor times lanes
    pub divisor: Share,
}

/// FLOW-1: E, how many passenger cars a heavy vehicle counts for.
fn truck_equivalent(terrain: Terrain) -> u64
    ensures { result ≡ truck_equivalent terrain }
{
    match terrain {
        Terrain::Level => 2,
        Terrain::Rolling => 3,
    }
}

impl Load {
    /// FLOW-1, FLOW-2: the load of a case that 7 to 9 let pass, with a lane count of its kind. Nothing else is
    /// asked of its road, nor of its own lanes and its weather.
    #[tactic(auto, using(crate::proofs::FlowLaws::load_laws), unfolding(crate::specs::Flow::heavy_factor_of))]
    pub fn of_case(case: &Case, lanes: u64) -> Load
        requires load { LoadFits case.now }
        requires fewest { fewest_lanes case.now.road.kind ≤ lanes }
        requires most { lanes ≤ most_lanes case.now.road.kind }
        ensures { result ≡ load_of case.now lanes }
    {
        Load {
            heavy_factor: 1_000 + case.heavy_share * (truck_equivalent(case.terrain) - 1),
            divisor: case.peak_hour_factor * lanes,
        }
    }

    /// FLOW-1, FLOW-2: the load of a fit case with a lane count of its kind.
    #[tactic(auto, using(road::proofs::RefusalLaws::fit_load))]
    pub fn of(fit: &FitCase, lanes: u64) -> Load
        requires fewest { fewest_lanes fit.now.case.road.kind ≤ lanes }
        requires most { lanes ≤ most_lanes fit.now.case.road.kind }
        ensures { result ≡ load_of fit.now.case lanes }
    {
        Load::of_case(&fit.case, lanes)
    }

    /// FLOW-2: the flow rate of a demand.
    #[tactic(auto, using(numbers::proofs::DivisionLaws::divisions), unfolding(crate::specs::Flow::flow_rate_of))]
    pub fn flow_rate(&self, demand: Demand) -> FlowRate
        requires sized { LoadSized self.now }
        requires demand_high { demand ≤ greatest_demand }
        ensures { result ≡ flow_rate_of self.now demand }
    {
        // Both fit 32 bits, in which a division costs less.
        let cars = (demand * self.heavy_factor) as u32;
        u64::from(cars.div_ceil(self.divisor as u32))
    }
}
