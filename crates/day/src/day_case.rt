//! What a day works out once for all its demands.

ghost use Rattle.std.specs.Prelude.{◌≡◌, Ok, IfOk};
ghost use Rattle.refusals.specs.Numbers.{number, refusal_number};
ghost use Rattle.road.specs.Cases.{with_demand};
ghost use Rattle.answer.specs.Volumes.{service_volumes};
ghost use Rattle.answer.specs.Answers.{answer_to};
ghost use Rattle.day.specs.DayCase.{refusal_with};

use answer::evaluate;
use answer::evaluate::{Grade, Volumes};
use method::accepted::AcceptedCase;
use numbers::units::Demand;
use refusals::Refusal;
use road::refusal::GREATEST_DEMAND;

/// DAY-1: a case that is accepted with no demand, and its service volumes.
#[derive(Clone, Copy)]
pub(crate) struct DayCase<'a> {
    pub accepted: &'a AcceptedCase,
    pub volumes: Volumes,
    ghost own_volumes: { volumes ≡ service_volumes accepted.now.case },
}

impl<'a> DayCase<'a> {
    /// DAY-3: the case that was checked with no demand, which is not copied, or what refused it.
    pub(crate) fn of(checked: &'a Result<AcceptedCase, Refusal>) -> Result<DayCase<'a>, Refusal>
        ensures refusal { refusal_number result ≡ refusal_number checked.now }
        ensures kept { IfOk result (λ day_case. checked.now ≡ Ok day_case.accepted.now) }
    {
        match checked {
            Ok(accepted) => Ok(DayCase {
                accepted,
                volumes: evaluate::service_volumes(accepted),
            }),
            Err(refusal) => Err(*refusal),
        }
    }

    /// DAY-1, REFUSAL-7: the answer with a demand, or 7.
    pub(crate) fn answer_with(&self, demand: Demand) -> Result<Grade, Refusal>
        ensures { result ≡ answer_to (with_demand self.now.accepted.now.case demand) }
    {
        if GREATEST_DEMAND < demand {
            return Err(Refusal::DemandTooLarge);
        }
        Ok(Grade::new(self.accepted.measures_at(demand), self.volumes))
    }

    /// DAY-3: of a case that is refused with no demand, its refusal with a demand, which is 7 where that
    /// comes first.
    pub(crate) fn refusal_with(refusal: Refusal, demand: Demand) -> Refusal
        ensures { number result ≡ refusal_with (number refusal) demand }
    {
        if GREATEST_DEMAND < demand && Refusal::DemandTooLarge.number() < refusal.number() {
            return Refusal::DemandTooLarge;
        }
        refusal
    }
}
