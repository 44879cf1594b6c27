//! The lanes question: the least lane count that meets a letter.

ghost use Rattle.std.specs.Prelude.{◌≡◌, ◌≤◌, IfOk};
ghost use Rattle.refusals.specs.Refusals.{first_refusal};
ghost use Rattle.refusals.specs.Numbers.{refusal_number};
ghost use Rattle.curve.specs.Kinds.{fewest_lanes, most_lanes};
ghost use Rattle.curve.specs.Service.{letter_number};
ghost use Rattle.answer.specs.Lanes.{lanes_meet, letter_refusals, lanes_answer};

use curve::service::Letter;
use curve::speed::CurveTerms;
use method::checked;
use method::flow::Load;
use refusals::Refusal;
use road::Case;
use road::refusal::FitCase;

/// LETTER-3, REFUSAL-16: the letter of a number from 1 to 5, or 16.
fn asked_letter(number: u64) -> Result<Letter, Refusal>
    ensures refusal { refusal_number result ≡ first_refusal (letter_refusals number) }
    ensures letter { IfOk result (λ letter. letter_number letter ≡ number) }
{
    match number {
        1 => Ok(Letter::A),
        2 => Ok(Letter::B),
        3 => Ok(Letter::C),
        4 => Ok(Letter::D),
        5 => Ok(Letter::E),
        _ => Err(Refusal::LetterUnknown),
    }
}

/// LANES-1, LANES-2: whether the case with a lane count of its kind meets a letter from A to E.
#[tactic(auto, using(crate::proofs::LanesLaws::meet_laws))]
fn lanes_meet(fit: &FitCase, letter: Letter, lanes: u64) -> bool
    requires fewest { fewest_lanes fit.now.case.road.kind ≤ lanes }
    requires most { lanes ≤ most_lanes fit.now.case.road.kind }
    requires letter { letter_number letter ≤ 5 }
    ensures { result ≡ lanes_meet fit.now.case (letter_number letter) lanes }
{
    match checked::checked_curve(fit, lanes) {
        Ok(curve) => {
            let flow_rate = Load::of(fit, lanes).flow_rate(fit.case.demand);
            CurveTerms::new(curve).meets_limit(flow_rate, letter.density_limit())
        }
        Err(_) => false,
    }
}

/// LANES-1, REFUSAL-14: the smallest count of the kind that, put into a fit case, meets a letter, or 14.
fn least_lanes(fit: &FitCase, letter: Letter) -> Result<u64, Refusal>
    requires { letter_number letter ≤ 5 }
    ensures { result ≡ lanes_answer fit.now.case (letter_number letter) }
{
    let limits = fit.case.road.kind.limits();
    for lanes in limits.fewest_lanes..=limits.most_lanes {
        if lanes_meet(fit, letter, lanes) {
            return Ok(lanes);
        }
    }
    Err(Refusal::NoLaneCount)
}

/// LANES-1, LANES-3: the smallest count of the kind that meets a letter, given by its number (A is 1), or the
/// first of 16, 1 to 9, 19 and 14.
#[tactic(auto, using(crate::proofs::LanesLaws::question_laws))]
pub fn lanes_needed(case: Case, letter: u64) -> Result<u64, Refusal>
    ensures { result ≡ lanes_answer case letter }
{
    let letter = asked_letter(letter)?;
    let fit = FitCase::check(case)?;
    least_lanes(&fit, letter)
}
