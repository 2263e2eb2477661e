// One slot, one run: the run record, its start, the grants of a slot, slots at several speeds, the word
// that a job has ended, and the outcome of each job.
#![tactic(auto)]

pub mod answers;
mod claims;
pub mod early;
mod essential;
pub mod outcome;
pub mod ranks;
pub mod shift;
mod slot;
pub mod soundness;
pub mod start;
pub mod step;
mod turns;

ghost use Rattle.std.specs.Prelude.{◌≡◌};
ghost use Rattle.dispatch.specs.Answers.{run_at};

use plan::edition::Edition;
use plan::kinds::Slots;

// A run: the clock, the two marks, and for each job the units carried and whether the host has told that it
// ended. Entries from the job count on are zero and clear at the start, and no call changes them.
#[derive(Clone, Copy)]
pub struct Run {
    pub clock: Slots,
    pub slow: bool,
    pub below: bool,
    pub carried: [u32; Edition::MOST_JOBS],
    pub ended: [bool; Edition::MOST_JOBS],
}

// A run without what it holds for each job.
#[derive(Clone, Copy)]
pub struct Moment {
    pub clock: Slots,
    pub slow: bool,
    pub below: bool,
}

impl Run {
    // The run but for its carried units and ended marks.
    pub(crate) fn moment(&self) -> Moment
        ensures { result ≡ record { clock = self.now.clock; slow = self.now.slow; below = self.now.below } }
    {
        Moment {
            clock: self.clock,
            slow: self.slow,
            below: self.below,
        }
    }
}

impl Moment {
    // A run, from its parts.
    pub(crate) fn with(
        self,
        carried: [u32; Edition::MOST_JOBS],
        ended: [bool; Edition::MOST_JOBS],
    ) -> Run
        ensures { result ≡ run_at self carried ended }
    {
        Run {
            clock: self.clock,
            slow: self.slow,
            below: self.below,
            carried,
            ended,
        }
    }
}
