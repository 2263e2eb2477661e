// The answers of `judge` and `slack`.
ghost use Rattle.std.specs.Prelude.{◌≡◌};
ghost use Rattle.plan.specs.Refusal.{HasNumber};
ghost use Rattle.plan.specs.Report.{number_of};
ghost use Rattle.judge.specs.Answers.{report_of, verdict_view};

use plan::kinds::Slots;
use plan::refusal::{DONE, Reason};

// Why a plan is refused: the first fault in the judge's order, with its first location.
#[derive(Clone, Copy, Debug, PartialEq, Eq)]
pub enum Fault {
    BufferTooShort,
    Unsound,
    // The job and the interval.
    OutsideWindow(usize, usize),
    // The job.
    WrongTotal(usize),
    // The interval.
    OverCapacity(usize),
    // The interval and the deadline.
    BelowFloor(usize, Slots),
}

// The least slack of a plan, with its first interval and deadline.
#[derive(Clone, Copy, Debug, PartialEq, Eq)]
pub struct Least {
    pub slack: i64,
    pub interval: usize,
    pub deadline: Slots,
}

impl Fault {
    // The reason, without the location.
    pub fn reason(self) -> Reason
        ensures { HasNumber (number_of (report_of self)) result }
    {
        match self {
            Fault::BufferTooShort => Reason::BufferTooShort,
            Fault::Unsound => Reason::Unsound,
            Fault::OutsideWindow(_, _) => Reason::OutsideWindow,
            Fault::WrongTotal(_) => Reason::WrongTotal,
            Fault::OverCapacity(_) => Reason::OverCapacity,
            Fault::BelowFloor(_, _) => Reason::BelowFloorRule,
        }
    }
}

// The number of a verdict: that of the fault's reason, or that of no refusal.
pub fn number_of(verdict: Result<(), Fault>) -> u8
    ensures { result ≡ number_of (verdict_view verdict) }
{
    match verdict {
        Ok(()) => DONE,
        Err(fault) => fault.reason().into(),
    }
}
