//! A day: the answers to up to 24 demands on one case.

#![tactic(auto)]

mod day_case;
pub mod promises;

ghost use Rattle.std.specs.Prelude.{◌≡◌, ◌∷◌, ◌≤◌, ◌<◌, length};
ghost use Rattle.refusals.specs.Refusals.{first_refusal};
ghost use Rattle.refusals.specs.Numbers.{refusal_number};
ghost use Rattle.text.specs.Buffer.{Wrote};
ghost use Rattle.day.specs.Days.{figure_count, answer_figures, day_written};
ghost use Rattle.day.specs.Days.{lent_unfit, lent_refusals, LentFits};

use answer::evaluate::Grade;
use day_case::DayCase;
use method::accepted::AcceptedCase;
use numbers::units::Demand;
use refusals::Refusal;
use road::Case;

/// DAY-1: the most demands of a day.
pub const MOST_DEMANDS: usize = 24;

/// DAY-2: how many numbers an answer is: its refusal's number, 0 for none, and eleven figures.
pub const FIGURE_COUNT: usize = 12;

#[tactic(auto, unfolding(crate::specs::Days::lent_unfit))]
fn lent_unfit(demands: usize, numbers: usize) -> bool
    ensures { result ≡ lent_unfit demands numbers }
{
    !(1..=MOST_DEMANDS).contains(&demands) || numbers / FIGURE_COUNT < demands
}

/// REFUSAL-18: asks whether so many demands and so many lent numbers make a day: not so with no demand, with
/// more than 24, and with fewer than twelve numbers a demand.
#[tactic(auto, unfolding(crate::specs::Days::lent_refusals))]
pub fn check_lent(demands: usize, numbers: usize) -> Result<(), Refusal>
    ensures { refusal_number result ≡ first_refusal (lent_refusals demands numbers) }
{
    if lent_unfit(demands, numbers) {
        return Err(Refusal::DayUnfit);
    }
    Ok(())
}

/// DAY-2: puts a refusal's number, or 0, and figures behind it; answers how many numbers these are.
fn put_position(number: u64, figures: &[u64], out: &mut [u64]) -> usize
    requires { length figures.now < length out.old }
    ensures { Wrote (number ∷ figures.now) out.old out.new result }
{
    out[0] = number;
    1 + text::buffer::put_numbers(figures, &mut out[1..])
}

/// DAY-2: puts the twelve numbers of an answer; behind a refusal's number they are 0.
fn put_answer(answer: Result<Grade, Refusal>, out: &mut [u64]) -> usize
    requires { figure_count ≤ length out.old }
    ensures { Wrote (answer_figures answer) out.old out.new result }
{
    match answer {
        Ok(grade) => put_position(0, &grade.figures(), out),
        Err(refusal) => put_position(refusal.number(), &[0; 11], out),
    }
}

/// DAY-1, DAY-3, CALL-5: puts the answer to the case with each demand in its position, twelve numbers each;
/// numbers behind them stay as they are. The case's own demand is not read, and a demand that 7 refuses has
/// 7 in its position alone. What `check_lent` refuses is not put.
pub fn put_day(case: Case, demands: &[Demand], answers: &mut [u64])
    requires { LentFits (length demands.now) (length answers.old) }
    ensures { answers.new ≡ day_written case demands.now answers.old }
{
    let checked = AcceptedCase::check(case.with_demand(0));
    let day_case = DayCase::of(&checked);
    let mut written = 0;
    for demand in demands {
        let answer = match &day_case {
            Ok(day_case) => day_case.answer_with(*demand),
            Err(refusal) => Err(DayCase::refusal_with(*refusal, *demand)),
        };
        written += put_answer(answer, &mut answers[written..]);
    }
}
