// What the desk works on.
ghost use Rattle.std.specs.Prelude.{◌≤◌};
ghost use Rattle.plan.specs.Edition.{most_boundaries};

use plan::boundaries::{Boundaries, boundaries_of};
use plan::columns::Columns;
use plan::kinds::Plan;
use plan::refusal::Reason;
use plan::rules::rules_hold;

// The jobs of a plan as columns, and the plan's boundaries, of which there is at least one.
#[derive(Clone, Copy)]
pub(crate) struct Task {
    pub columns: Columns,
    pub boundaries: Boundaries,
    ghost some: { 1 ≤ boundaries.count },
    ghost within: { boundaries.count ≤ most_boundaries },
}

impl Task {
    ghost use Rattle.std.specs.Prelude.{◌≡◌, length};
    ghost use Rattle.desk.specs.Inner.Tasks.{Sets, times_of};

    // The task of a plan; refused if rules 4 to 9 do not hold.
    pub(crate) fn of(p: Plan) -> Result<Task, Reason>
        ensures { Sets p result }
    {
        if !rules_hold(p) {
            return Err(Reason::Unsound);
        }
        let mut columns = Columns::EMPTY;
        columns.put(p)?;
        let boundaries = boundaries_of(p);
        Ok(Task {
            columns,
            boundaries,
        })
    }

    // The boundaries.
    pub(crate) fn times(&self) -> &[u32]
        ensures are { result.now ≡ times_of self.now }
        ensures some { 1 ≤ length result.now }
        ensures few { length result.now ≤ most_boundaries }
    {
        &self.boundaries.times[..self.boundaries.count]
    }
}
