// The outcome of a job, and the numbers of the answers of calls on a run.
ghost use Rattle.std.specs.Prelude.{◌≡◌, ℕ};
ghost use Rattle.plan.specs.Refusal.{number_of as reason_number};
ghost use Rattle.plan.specs.Report.{number_of};
ghost use Rattle.plan.proofs.Reasons.{number_one};
ghost use Rattle.dispatch.specs.Answers.{answer_by};

use plan::refusal::{DONE, Reason};

// The outcome of a job.
#[derive(Clone, Copy, Debug, PartialEq, Eq)]
pub enum Outcome {
    Met,
    Ended,
    Discarded,
    Missed,
    Open,
}

// What tells a refusal: its reason, or a number alone. Equal numbers are told by the same.
pub trait Numbered: Copy {
    ghost number: { Self → ℕ };

    // What tells a reason.
    fn of(reason: Reason) -> Self
        ensures { number result ≡ reason_number reason };

    // The number that is told.
    fn number(self) -> u8
        ensures { result ≡ number self };

    ghost one: { (x y : Self) → number x ≡ number y → x ≡ y };
}

impl Numbered for Reason {
    ghost number = { reason_number };

    ghost one = { number_one };

    fn of(reason: Reason) -> Reason {
        reason
    }

    fn number(self) -> u8 {
        u8::from(self)
    }
}

impl Numbered for u8 {
    ghost number = { λ n. n };

    ghost one = { λ x y e. e };

    fn of(reason: Reason) -> u8 {
        u8::from(reason)
    }

    fn number(self) -> u8 {
        self
    }
}

// The number of an answer: that of no refusal if the call is done.
pub fn number_of<T, E: Numbered>(answer: &Result<T, E>) -> u8
    ensures { result ≡ number_of (answer_by E.number answer.now) }
{
    match answer {
        Ok(_) => DONE,
        Err(refusal) => refusal.number(),
    }
}
