// The calls' answers as numbers: 0 for done, a refusal's own number,
// and numbers above one byte for the rest; and the locations that answers name.
ghost use Rattle.std.specs.Prelude.{◌≡◌, [], ◌∷◌, Ok};
ghost use Rattle.plan.specs.Refusal as refusal;
ghost use Rattle.plan.specs.Report.{number_of};
ghost use Rattle.judge.specs.Answers.{report_of, verdict_view, slack_view};
ghost use Rattle.desk.specs.Answers as desks;
ghost use Rattle.dispatch.specs.Answers.{answer_view, outcome_view};
ghost use Rattle.meter.specs.Answers as meters;
ghost use Rattle.gateway.specs.Calls.{first_of, second_of, third_of, fourth_of, ending_number, figure_number, figure_first, figure_second};
ghost use Rattle.gateway.specs.Answers.{finding_number};

use desk::answers::Shortage;
use dispatch::answers::Outcome;
use judge::answers::{Fault, Least};
use plan::refusal::{DONE, Reason};

// What an answer tells besides that a call is done or refused. The numbers are above those of all reasons,
// which have one byte.
#[derive(Clone, Copy, Debug, PartialEq, Eq)]
pub(crate) enum Finding {
    NoneEssential = 256,
    Met = 257,
    Discarded = 258,
    Missed = 259,
    Open = 260,
    Ended = 261,
}

impl From<Finding> for u32 {
    ghost from_gives = { λ finding number. number ≡ finding_number finding };

    fn from(finding: Finding) -> u32 {
        finding as u32
    }
}

impl From<Outcome> for Finding {
    ghost from_gives = { λ outcome finding. finding_number finding ≡ ending_number (outcome_view (Ok outcome)) };

    fn from(outcome: Outcome) -> Finding {
        match outcome {
            Outcome::Met => Finding::Met,
            Outcome::Ended => Finding::Ended,
            Outcome::Discarded => Finding::Discarded,
            Outcome::Missed => Finding::Missed,
            Outcome::Open => Finding::Open,
        }
    }
}

// The number of an answer: that of no refusal if the call is done.
pub(crate) fn number_of<T>(answer: &Result<T, Reason>) -> u32
    ensures { result ≡ number_of (answer_view answer.now) }
{
    match answer {
        Ok(_) => u32::from(DONE),
        Err(reason) => u32::from(*reason),
    }
}

pub(crate) fn outcome_number(told: Result<Outcome, Reason>) -> u32
    ensures { result ≡ ending_number (outcome_view told) }
{
    match told {
        Ok(outcome) => Finding::from(outcome).into(),
        Err(reason) => reason.into(),
    }
}

pub(crate) fn figure_number(figure: Result<Option<Least>, Fault>) -> u32
    ensures { result ≡ figure_number (slack_view figure) }
{
    match figure {
        Ok(None) => Finding::NoneEssential.into(),
        Ok(Some(_)) => u32::from(DONE),
        Err(fault) => fault.reason().into(),
    }
}

// The location that a fault names, in two parts; 0 for a part that it does not name.
fn location_of(fault: Fault) -> [u64; 2]
    ensures { result ≡ first_of (report_of fault) ∷ second_of (report_of fault) ∷ [] }
{
    match fault {
        Fault::BufferTooShort => [0, 0],
        Fault::Unsound => [0, 0],
        Fault::OutsideWindow(job, interval) => [job as u64, interval as u64],
        Fault::WrongTotal(job) => [job as u64, 0],
        Fault::OverCapacity(interval) => [interval as u64, 0],
        Fault::BelowFloor(interval, deadline) => [interval as u64, u64::from(deadline.0)],
    }
}

// The location that a verdict names; zeros for acceptance.
pub(crate) fn verdict_location<T>(verdict: &Result<T, Fault>) -> [u64; 2]
    ensures { result ≡ first_of (verdict_view verdict.now) ∷ second_of (verdict_view verdict.now) ∷ [] }
{
    match verdict {
        Ok(_) => [0, 0],
        Err(fault) => location_of(*fault),
    }
}

// The location of a figure: interval and deadline of the least slack, or the location of a fault.
pub(crate) fn figure_location(figure: Result<Option<Least>, Fault>) -> [u64; 2]
    ensures { result ≡ figure_first (slack_view figure) ∷ figure_second (slack_view figure) ∷ [] }
{
    match figure {
        Ok(None) => [0, 0],
        Ok(Some(least)) => [least.interval as u64, u64::from(least.deadline.0)],
        Err(fault) => location_of(fault),
    }
}

// The times of the pair by which there is no timetable, what is asked by them and what the link carries;
// zeros if there is no pair.
pub(crate) fn pair_of(found: Result<(), Shortage>) -> [u64; 4]
    ensures { result ≡ first_of (desks.answer_view found) ∷ second_of (desks.answer_view found) ∷ third_of (desks.answer_view found) ∷ fourth_of (desks.answer_view found) ∷ [] }
{
    match found {
        Err(
            Shortage::Pair {
                due,
                late,
                asked,
                carried,
            },
        ) => [u64::from(due.0), u64::from(late.0), asked.0, carried.0],
        _ => [0; 4],
    }
}
