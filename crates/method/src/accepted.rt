//! CASE-4: a case that nothing refuses, and what it gets.

ghost use Rattle.std.specs.Prelude.{◌≡◌, ◌≤◌, IfOk};
ghost use Rattle.refusals.specs.Numbers.{refusal_number};
ghost use Rattle.road.specs.Cases.{with_demand, with_load};
ghost use Rattle.road.specs.Refusals.{greatest_demand, LoadFits};
ghost use Rattle.method.specs.Refusals.{refusal, Accepted};
ghost use Rattle.method.specs.Checked.{case_curve};
ghost use Rattle.method.specs.Flow.{load_of, LoadSized};
ghost use Rattle.method.specs.Assess.{measures};

use crate::checked;
use crate::flow::Load;
use curve::Curve;
use curve::service::Performance;
use curve::speed::CurveTerms;
use numbers::units::{Demand, FlowRate, Share};
use refusals::Refusal;
use road::Case;
use road::refusal::FitCase;

/// CURVE-3, FLOW-2: what demands have in common, worked out once: a curve and a load.
#[derive(Clone, Copy)]
pub struct CaseTerms {
    pub curve_terms: CurveTerms,
    pub load: Load,
    pub ghost load_sized: { LoadSized load },
}

/// CASE-4: a case that none of 1 to 9, 19 and 10 refuses, with what its demands have in common.
#[derive(Clone, Copy)]
pub struct AcceptedCase {
    pub case: Case,
    pub terms: CaseTerms,
    pub ghost accepted: { Accepted case },
    pub ghost own_curve: { terms.curve_terms.curve ≡ case_curve case },
    pub ghost own_load: { terms.load ≡ load_of case case.lanes },
}

/// ANSWER-1: what a case gets: its curve, its flow rate, and what that gets on the curve.
#[derive(Clone, Copy)]
pub struct Measures {
    pub curve: Curve,
    pub flow_rate: FlowRate,
    pub performance: Performance,
}

impl AcceptedCase {
    /// ORDER-2, CASE-4: the case, or the first of 1 to 9, 19 and 10 that refuses it. Inlined, so that an
    /// accepted case is not copied on its way.
    #[inline(always)]
    #[tactic(auto, using(refusals::proofs::NumberLaws::in_turn), unfolding(crate::specs::Refusals::refusals))]
    pub fn check(case: Case) -> Result<AcceptedCase, Refusal>
        ensures refusal { refusal_number result ≡ refusal case }
        ensures kept { IfOk result (λ accepted. accepted.case ≡ case) }
    {
        AcceptedCase::of(FitCase::check(case)?)
    }

    /// REFUSAL-10: the case that is fit, or 10.
    #[tactic(auto, using(crate::proofs::CheckedLaws::accepted_laws))]
    pub fn of(fit: FitCase) -> Result<AcceptedCase, Refusal>
        ensures refusal { refusal_number result ≡ refusal fit.case }
        ensures kept { IfOk result (λ accepted. accepted.case ≡ fit.case) }
    {
        let lanes = fit.case.lanes;
        let curve = checked::checked_curve(&fit, lanes)?;
        Ok(AcceptedCase {
            case: fit.case,
            terms: CaseTerms {
                curve_terms: CurveTerms::new(curve),
                load: Load::of(&fit, lanes),
            },
        })
    }

    /// CASE-3, FORECAST-1: the case under another load that 7 to 9 let pass: another demand, peak-hour factor
    /// and heavy share. The curve is kept.
    #[tactic(auto, using(crate::proofs::CheckedLaws::another_load), unfolding(crate::specs::Checked::curve_of))]
    pub fn with_load(
        &self,
        demand: Demand,
        peak_hour_factor: Share,
        heavy_share: Share,
    ) -> AcceptedCase
        requires { LoadFits (with_load self.now.case demand peak_hour_factor heavy_share) }
        ensures { result.case ≡ with_load self.now.case demand peak_hour_factor heavy_share }
    {
        let case = self.case.with_load(demand, peak_hour_factor, heavy_share);
        AcceptedCase {
            case,
            terms: CaseTerms {
                curve_terms: self.terms.curve_terms,
                load: Load::of_case(&case, case.lanes),
            },
        }
    }

    /// ANSWER-1, CASE-3: what the case gets with a demand in the place of its own.
    #[tactic(auto, unfolding(crate::specs::Assess::measures, crate::specs::Flow::heavy_factor_of))]
    pub fn measures_at(&self, demand: Demand) -> Measures
        requires { demand ≤ greatest_demand }
        ensures { result ≡ measures (with_demand self.now.case demand) }
    {
        let flow_rate = self.terms.load.flow_rate(demand);
        Measures {
            curve: self.terms.curve_terms.curve,
            flow_rate,
            performance: self.terms.curve_terms.performance_at(flow_rate),
        }
    }

    /// ANSWER-1: what the case gets.
    #[tactic(auto, using(crate::proofs::RefusalLaws::accepted_ends))]
    pub fn measures(&self) -> Measures
        ensures { result ≡ measures self.now.case }
    {
        self.measures_at(self.case.demand)
    }
}
