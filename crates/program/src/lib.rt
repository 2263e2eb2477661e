// The program as turns: progress and bytes in, progress and a line out. What all turns print
// together is one definition, `output` in specs/Output.
#![tactic(auto)]

mod opening;
mod turns;

use dispatch::Run;
pub use opening::open;
use plan::kinds::Plan;
use plan::refusal::Reason;
pub use turns::{advance, is_over, is_reading};

// What the next turn prints: a slot, the header of the outcomes, the outcome of a job, or nothing more.
#[derive(Clone, Copy, Debug, PartialEq, Eq)]
pub enum Phase {
    Slots,
    Closing,
    Job(usize),
    Over,
}

// The program's state: the phase, the plan, and its run.
#[derive(Clone, Copy)]
pub struct Progress {
    pub phase: Phase,
    pub plan: Plan,
    pub run: Run,
}

// The result of a turn: the progress after it, and the answer of the line's
// call, with length 0 if there is no line.
#[derive(Clone, Copy)]
pub struct Turn {
    pub progress: Progress,
    pub printed: Result<usize, Reason>,
}
