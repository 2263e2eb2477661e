// The outcome of a job: over the columns of a plan's jobs, and by value.
ghost use Rattle.dispatch.specs.Answers.{Ends, EndsOver};

use crate::Run;
use crate::answers::Outcome;
use crate::soundness::readiness_of;
use plan::columns::Columns;
use plan::kinds::{HI, Plan};
use plan::refusal::Reason;

// The outcome of the job at a position, or 21, for a plan whose columns are lent.
pub fn outcome_over(cols: &Columns, run: Run, position: usize) -> Result<Outcome, Reason>
    ensures { EndsOver cols.now run position result }
{
    readiness_of(cols, run.clock, &run.carried)?;
    if cols.count <= position {
        return Err(Reason::Unsound);
    }
    if run.carried[position] == cols.sizes[position] {
        return Ok(Outcome::Met);
    }
    if run.ended[position] {
        return Ok(Outcome::Ended);
    }
    if (cols.grades[position] != HI as u32) & run.slow {
        return Ok(Outcome::Discarded);
    }
    if cols.deadlines[position] <= run.clock.0 {
        return Ok(Outcome::Missed);
    }
    Ok(Outcome::Open)
}

// The outcome of the job at a position, or 21. A size that has no room in a column is too large for rule 9.
pub fn outcome(p: Plan, run: Run, position: usize) -> Result<Outcome, Reason>
    ensures { Ends p run position result }
{
    let mut cols = Columns::EMPTY;
    cols.put(p)?;
    outcome_over(&cols, run, position)
}
