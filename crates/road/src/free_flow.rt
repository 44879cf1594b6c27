//! FFS-1: free-flow speed, given or estimated, before the weather's factor.

ghost use Rattle.std.specs.Prelude.{◌≡◌};
ghost use Rattle.curve.specs.declared.kind.Kind.TheVariants as Kind;
ghost use Rattle.road.specs.FreeFlowSpeed.{estimated_by, uncapped_speed, free_flow_speed_of};
ghost use Rattle.road.specs.Refusals.{RoadFits};

use crate::ramp::ramp_term;
use crate::refusal::FitCase;
use crate::{Road, Way};
use curve::kind::Kind;
use numbers::units::Speed;

impl Road {
    /// FFS-2: kind F.
    #[tactic(auto, using(crate::proofs::FreeFlowSpeedLaws::estimate_terms), unfolding(crate::specs::FreeFlowSpeed::estimated_by))]
    fn freeway_estimate(&self, lanes: u64) -> Speed
        requires fits { RoadFits self.now }
        requires freeway { self.now.kind ≡ Kind.Freeway }
        ensures { result ≡ estimated_by Kind.Freeway self.now lanes }
    {
        self.speed
            - self.lane_width_adjustment()
            - self.right_clearance_adjustment(lanes)
            - ramp_term(self.access)
    }

    /// FFS-2: kind M.
    #[tactic(auto, using(crate::proofs::FreeFlowSpeedLaws::estimate_terms), unfolding(crate::specs::FreeFlowSpeed::estimated_by))]
    fn multilane_estimate(&self, lanes: u64) -> Speed
        requires fits { RoadFits self.now }
        requires multilane { self.now.kind ≡ Kind.Multilane }
        ensures { result ≡ estimated_by Kind.Multilane self.now lanes }
    {
        self.speed
            - self.lane_width_adjustment()
            - self.total_clearance_adjustment(lanes)
            - self.median_adjustment()
            - self.access_adjustment()
    }

    /// FFS-1: before the upper end.
    #[tactic(auto, unfolding(crate::specs::FreeFlowSpeed::uncapped_by))]
    fn uncapped_speed(&self, lanes: u64) -> Speed
        requires { RoadFits self.now }
        ensures { result ≡ uncapped_speed self.now lanes }
    {
        match (self.way, self.kind) {
            (Way::Given, _) => self.speed,
            (Way::Estimated, Kind::Freeway) => self.freeway_estimate(lanes),
            (Way::Estimated, Kind::Multilane) => self.multilane_estimate(lanes),
        }
    }

    /// FFS-1, FFS-10: F of a road that 1 to 5 let pass, with a lane count: given or estimated, and at most
    /// the kind's upper end. No load and no weather is asked.
    #[tactic(auto, unfolding(crate::specs::FreeFlowSpeed::free_flow_speed_of))]
    pub fn free_flow_speed(&self, lanes: u64) -> Speed
        requires { RoadFits self.now }
        ensures { result ≡ free_flow_speed_of self.now lanes }
    {
        self.uncapped_speed(lanes)
            .min(self.kind.limits().highest_speed)
    }
}

impl FitCase {
    /// FFS-1, FFS-10: F of the case's road with a lane count.
    #[tactic(auto, using(crate::proofs::RefusalLaws::fit_road))]
    pub fn free_flow_speed(&self, lanes: u64) -> Speed
        ensures { result ≡ free_flow_speed_of self.now.case.road lanes }
    {
        self.case.road.free_flow_speed(lanes)
    }
}
