// The host's word that a job has ended: over the columns of a plan's jobs, and by value.
ghost use Rattle.std.specs.Prelude.{◌≡◌};
ghost use Rattle.dispatch.specs.Step.{is_open};
ghost use Rattle.dispatch.specs.Answers.{outcome_view, Tells, TellsOver};

use crate::Run;
use crate::answers::Outcome;
use crate::outcome::outcome_over;
use crate::soundness::readiness_of;
use plan::columns::Columns;
use plan::kinds::Plan;
use plan::refusal::Reason;

fn is_open(ending: Result<Outcome, Reason>) -> bool
    ensures { result ≡ is_open (outcome_view ending) }
{
    matches!(ending, Ok(Outcome::Open))
}

// The run with the ended mark of the job at a position set, for a plan whose columns are lent: 21 on the grounds of
// a slot's 21, 25 if there is no such job, 26 before its release or if its outcome is no longer open.
pub fn end_over(cols: &Columns, run: Run, position: usize) -> Result<Run, Reason>
    ensures { TellsOver cols.now run position result }
{
    readiness_of(cols, run.clock, &run.carried)?;
    if cols.count <= position {
        return Err(Reason::NoSuchJob);
    }
    let ending = outcome_over(cols, run, position);
    if (run.clock.0 < cols.releases[position]) | !is_open(ending) {
        return Err(Reason::CannotEnd);
    }
    let mut after = run;
    after.ended[position] = true;
    Ok(after)
}

// The run with the ended mark of the job at a position set, or a refusal. A size that has no room in a column is too
// large for rule 9.
pub fn end_early(p: Plan, run: Run, position: usize) -> Result<Run, Reason>
    ensures { Tells p run position result }
{
    let mut cols = Columns::EMPTY;
    cols.put(p)?;
    end_over(&cols, run, position)
}
