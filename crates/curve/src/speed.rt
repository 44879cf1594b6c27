//! CURVE-3: speed on a curve, as an exact fraction of thousandths of mi/h.

ghost use Rattle.std.specs.Prelude.{◌≡◌, ◌*◌, ◌-◌, ◌/◌, ◌≤◌};
ghost use Rattle.curve.specs.Curves.{WellFormed, Sized};
ghost use Rattle.curve.specs.Speed.{beyond_breakpoint, span_to_capacity, fall_share, ExactSpeed};
ghost use Rattle.curve.specs.Terms.{share_denominator_of};

use crate::kind::Kind;
use crate::{Curve, power};
use numbers::Fraction;
use numbers::units::{Capacity, FlowRate};

/// CURVE-3: a curve with what its speeds have in common, worked out once.
#[derive(Clone, Copy)]
pub struct CurveTerms {
    pub curve: Curve,
    /// the greatest flow rate up to capacity
    pub most_flow: FlowRate,
    /// c - b
    pub span: Capacity,
    /// the denominator of w
    pub share_denominator: u64,
    /// 9F times the denominator of w
    pub free_flow_term: u64,
    /// 9F - 2c
    pub fall_term: u64,
    pub ghost well_formed: { WellFormed curve },
    pub ghost sized: { Sized curve },
    pub ghost own_most_flow: { most_flow ≡ curve.capacity / 100 },
    pub ghost own_span: { span ≡ span_to_capacity curve },
    pub ghost own_denominator: { share_denominator ≡ share_denominator_of curve.kind span },
    pub ghost own_free_flow_term: { free_flow_term ≡ 9 * curve.free_flow_speed * share_denominator },
    pub ghost own_fall_term: { fall_term ≡ 9 * curve.free_flow_speed - 2 * curve.capacity },
}

impl Kind {
    fn share_denominator(self, span: Capacity) -> u64
        requires { span ≤ 140000 }
        ensures { result ≡ share_denominator_of self span }
    {
        match self {
            Kind::Freeway => span * span,
            Kind::Multilane => 1_000_000,
        }
    }
}

impl Curve {
    fn beyond_breakpoint(&self, v: FlowRate) -> Capacity
        requires up_to_capacity { 100 * v ≤ self.now.capacity }
        requires sized { Sized self.now }
        ensures { result ≡ beyond_breakpoint self.now v }
    {
        (100 * v).saturating_sub(self.breakpoint)
    }
}

impl CurveTerms {
    /// CURVE-3: the terms of a curve whose breakpoint is below its capacity, within the sizes that 64 bits
    /// take.
    pub fn new(curve: Curve) -> CurveTerms
        requires well_formed { WellFormed curve }
        requires sized { Sized curve }
        ensures { result.curve ≡ curve }
    {
        let span = curve.capacity - curve.breakpoint;
        let share_denominator = curve.kind.share_denominator(span);
        CurveTerms {
            curve,
            most_flow: curve.capacity / 100,
            span,
            share_denominator,
            free_flow_term: 9 * curve.free_flow_speed * share_denominator,
            fall_term: 9 * curve.free_flow_speed - 2 * curve.capacity,
        }
    }

    /// CURVE-4, CURVE-5: the numerator of w, its denominator being in the terms.
    #[tactic(auto, using(numbers::proofs::DivisionLaws::divisions), unfolding(crate::specs::Speed::fall_share_by))]
    fn share_numerator(&self, v: FlowRate) -> u64
        requires { 100 * v ≤ self.now.curve.capacity }
        ensures { result ≡ (fall_share self.now.curve v).numerator }
    {
        let beyond = self.curve.beyond_breakpoint(v);
        match self.curve.kind {
            Kind::Freeway => beyond * beyond,
            Kind::Multilane => power::power((1_000 * beyond).div_ceil(self.span)),
        }
    }

    /// CURVE-3: F - (F - 2c/9) x w, over 9 times the denominator of w.
    #[tactic(auto, using(crate::proofs::TermsLaws::terms_fit))]
    pub(crate) fn exact_speed(&self, v: FlowRate) -> Fraction
        requires { 100 * v ≤ self.now.curve.capacity }
        ensures { ExactSpeed self.now.curve v result }
    {
        Fraction {
            numerator: self.free_flow_term - self.fall_term * self.share_numerator(v),
            denominator: 9 * self.share_denominator,
        }
    }
}
