// The start of a run, by value: the run, or the judge's fault.
ghost use Rattle.std.specs.Prelude.{◌≡◌, false, replicate};
ghost use Rattle.plan.specs.Edition.{most_jobs};
ghost use Rattle.dispatch.specs.Step.{no_run};
ghost use Rattle.dispatch.specs.Answers.{Starts};

use crate::Run;
use judge::answers::Fault;
use judge::judge;
use plan::boundaries::first_release;
use plan::edition::Edition;
use plan::kinds::{Plan, Slots};

// A run at a given clock, with nothing carried, no job ended and both marks clear.
fn fresh(clock: Slots) -> Run
    ensures { result ≡ record { clock = clock; slow = false; below = false; carried = replicate most_jobs 0; ended = replicate most_jobs false } }
{
    Run {
        clock,
        slow: false,
        below: false,
        carried: [0; Edition::MOST_JOBS],
        ended: [false; Edition::MOST_JOBS],
    }
}

// The run of no plan: all zeros.
pub fn no_run() -> Run
    ensures { result ≡ no_run }
{
    fresh(Slots(0))
}

// The run of a plan at its start, if the judge accepts it.
pub fn start(p: Plan, table: &[u32]) -> Result<Run, Fault>
    ensures { Starts p table.now result }
{
    judge(p, table)?;
    Ok(fresh(first_release(p)))
}
