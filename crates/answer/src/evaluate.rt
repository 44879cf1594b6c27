//! The answer to a case: its letter, speed and density, and the service volumes of its road.

ghost use Rattle.std.specs.Prelude.{◌≡◌, ◌≤◌};
ghost use Rattle.curve.specs.Service.{letter_number};
ghost use Rattle.road.specs.Refusals.{greatest_demand};
ghost use Rattle.answer.specs.Volumes.{service_volumes};
ghost use Rattle.answer.specs.Search.{demand_meets, searched_volumes};
ghost use Rattle.answer.specs.Answers.{grade_of, answer_to, grade_figures};
ghost use Rattle.answer.specs.Tries.{tests_of, found, found_volumes, counted_answer};

use curve::service::Letter;
use method::accepted::{AcceptedCase, CaseTerms, Measures};
use numbers::units::{Capacity, Demand, Density, FlowRate, Speed};
use refusals::Refusal;
use road::Case;
use road::refusal::GREATEST_DEMAND;

/// VOLUME-2: the service volumes of A to E.
#[derive(Clone, Copy, PartialEq, Eq)]
pub struct Volumes {
    pub a: Demand,
    pub b: Demand,
    pub c: Demand,
    pub d: Demand,
    pub e: Demand,
}

/// ANSWER-1: the answer to an accepted case.
#[derive(Clone, Copy, PartialEq, Eq)]
pub struct Grade {
    pub letter: Letter,
    pub free_flow_speed: Speed,
    pub capacity: Capacity,
    pub flow_rate: FlowRate,
    /// LETTER-2: 0 above capacity
    pub speed: Speed,
    /// LETTER-2: 0 above capacity
    pub density: Density,
    pub volumes: Volumes,
}

/// TRIES-3: a value, and how many demands were tried for it.
#[derive(Clone, Copy)]
pub struct Counted<T> {
    pub value: T,
    pub tries: u64,
}

impl Grade {
    /// ANSWER-1: the grade of what a case gets and its service volumes.
    pub fn new(measures: Measures, volumes: Volumes) -> Grade
        ensures { result ≡ grade_of measures volumes }
    {
        let performance = measures.performance;
        Grade {
            letter: performance.letter,
            free_flow_speed: measures.curve.free_flow_speed,
            capacity: measures.curve.capacity,
            flow_rate: measures.flow_rate,
            speed: performance.speed,
            density: performance.density,
            volumes,
        }
    }

    /// ANSWER-1: its eleven figures in their order, the letter by its number.
    pub fn figures(&self) -> [u64; 11]
        ensures { result ≡ grade_figures (Ok self.now) }
    {
        let volumes = self.volumes;
        [
            self.letter.number(),
            self.free_flow_speed,
            self.capacity,
            self.flow_rate,
            self.speed,
            self.density,
            volumes.a,
            volumes.b,
            volumes.c,
            volumes.d,
            volumes.e,
        ]
    }
}

/// VOLUME-1: whether a demand keeps to capacity and to a density.
#[tactic(auto, unfolding(crate::specs::Search::demand_meets))]
fn demand_meets(terms: &CaseTerms, limit: Density, demand: Demand) -> bool
    requires limit_high { limit ≤ 450 }
    requires demand_high { demand ≤ greatest_demand }
    ensures { result ≡ demand_meets terms.now.curve_terms.curve terms.now.load limit demand }
{
    let flow_rate = terms.load.flow_rate(demand);
    terms.curve_terms.meets_limit(flow_rate, limit)
}

/// TRIES-1: the greatest demand up to the end that keeps to capacity and to a letter's density: 0 does.
fn greatest_meeting(terms: &CaseTerms, letter: Letter, end: Demand) -> Counted<Demand>
    requires { end ≤ greatest_demand }
    ensures found { result
        ≡ found (tests_of terms.now.curve_terms.curve terms.now.load (letter_number letter)) end }
    ensures value { result.value ≤ end }
    ensures tries { result.tries ≤ end }
{
    let limit = letter.density_limit();
    let mut low = 0;
    let mut high = end + 1;
    let mut tries = 0;
    while low + 1 < high {
        let middle = (low + high) / 2;
        tries += 1;
        if demand_meets(terms, limit, middle) {
            low = middle;
        } else {
            high = middle;
        }
    }
    Counted { value: low, tries }
}

/// TRIES-2: E first, then each better letter up to the volume found before: no volume is above that of the
/// next worse letter.
#[tactic(auto, using(crate::proofs::TriesLaws::search_laws))]
fn found_volumes(terms: &CaseTerms) -> Counted<Volumes>
    ensures { result ≡ found_volumes terms.now.curve_terms.curve terms.now.load }
{
    let e = greatest_meeting(terms, Letter::E, GREATEST_DEMAND);
    let d = greatest_meeting(terms, Letter::D, e.value);
    let c = greatest_meeting(terms, Letter::C, d.value);
    let b = greatest_meeting(terms, Letter::B, c.value);
    let a = greatest_meeting(terms, Letter::A, b.value);
    Counted {
        value: Volumes {
            a: a.value,
            b: b.value,
            c: c.value,
            d: d.value,
            e: e.value,
        },
        tries: e.tries + d.tries + c.tries + b.tries + a.tries,
    }
}

/// VOLUME-2: the service volumes on any curve with any load.
pub fn searched_volumes(terms: &CaseTerms) -> Volumes
    ensures { result ≡ searched_volumes terms.now.curve_terms.curve terms.now.load }
{
    found_volumes(terms).value
}

/// VOLUME-2: the service volumes of an accepted case.
#[tactic(auto, using(crate::proofs::VolumeLaws::volume_laws))]
pub fn service_volumes(accepted: &AcceptedCase) -> Volumes
    ensures { result ≡ service_volumes accepted.now.case }
{
    searched_volumes(&accepted.terms)
}

#[tactic(auto, using(crate::proofs::TriesLaws::found_laws), unfolding(crate::specs::Answers::graded))]
fn counted_grade(accepted: &AcceptedCase) -> Counted<Result<Grade, Refusal>>
    ensures { result ≡ counted_answer accepted.now.case }
{
    let found = found_volumes(&accepted.terms);
    Counted {
        value: Ok(Grade::new(accepted.measures(), found.value)),
        tries: found.tries,
    }
}

/// ANSWER-1, TRIES-3: the grade of a case, or the first of 1 to 9, 19 and 10 that refuses it, and how many
/// demands were tried: none for a case that is refused.
#[tactic(auto, using(crate::proofs::TriesLaws::counted_laws))]
pub fn evaluate_counted(case: Case) -> Counted<Result<Grade, Refusal>>
    ensures { result ≡ counted_answer case }
{
    match AcceptedCase::check(case) {
        Ok(accepted) => counted_grade(&accepted),
        Err(refusal) => Counted {
            value: Err(refusal),
            tries: 0,
        },
    }
}

/// ANSWER-1, ORDER-2: the grade of a case, or the first of 1 to 9, 19 and 10 that refuses it.
pub fn evaluate(case: Case) -> Result<Grade, Refusal>
    ensures { result ≡ answer_to case }
{
    evaluate_counted(case).value
}
