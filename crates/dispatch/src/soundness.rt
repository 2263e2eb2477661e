// The readiness of a plan and a run for a slot, from the columns of the plan's jobs: unsound, at the
// plan's end, or running.
ghost use Rattle.std.specs.Prelude.{◌≡◌, ◌≤◌, min, max, get_or};
ghost use Rattle.base.specs.Below.{every, least, greatest};
ghost use Rattle.plan.specs.Edition.{most_jobs};
ghost use Rattle.plan.specs.Rules.{grade_allowed};
ghost use Rattle.dispatch.specs.Inner.Columns.{plan_on};
ghost use Rattle.dispatch.specs.Inner.Readiness.{readiness, job_sound};

use plan::columns::Columns;
use plan::edition::Edition;
use plan::kinds::{HI, LO, Slots, as_units};
use plan::refusal::Reason;
use plan::rules::{count_allowed, counted_within, rates_allowed, size_allowed, window_allowed};

// Where the clock of a sound run stands.
#[derive(Clone, Copy, Debug, PartialEq, Eq)]
pub(crate) enum Readiness {
    // At the last deadline.
    Over,
    Running,
}

// The least of the first releases; 0 without jobs.
fn first_of(releases: &[u32; Edition::MOST_JOBS], jobs: usize) -> Slots
    requires { jobs ≤ most_jobs }
    ensures { result.0 ≡ least (λ i. get_or releases.now i 0) jobs }
{
    if jobs == 0 {
        return Slots(0);
    }
    let mut so_far = releases[0];
    for i in 1..jobs {
        so_far = so_far.min(releases[i]);
    }
    Slots(so_far)
}

// The greatest of the first deadlines; 0 without jobs.
pub(crate) fn last_of(deadlines: &[u32; Edition::MOST_JOBS], jobs: usize) -> Slots
    requires { jobs ≤ most_jobs }
    ensures { result.0 ≡ greatest (λ i. get_or deadlines.now i 0) jobs }
{
    let mut so_far = 0;
    for i in 0..jobs {
        so_far = so_far.max(deadlines[i]);
    }
    Slots(so_far)
}

// Rule 8 on a grade of a column.
fn is_grade(grade: u32) -> bool
    ensures { result ≡ grade_allowed grade }
{
    (grade == LO as u32) | (grade == HI as u32)
}

// Rules 8 and 9 over the first jobs, none of which has more carried than its size. It looks at all of
// them, which is faster than stopping at the first that is at fault.
fn jobs_sound(jobs: usize, cols: &Columns, carried: &[u32; Edition::MOST_JOBS]) -> bool
    requires { jobs ≤ most_jobs }
    ensures { result ≡ every (job_sound cols.now carried.now) jobs }
{
    let mut sound = true;
    for i in 0..jobs {
        let window = window_allowed(Slots(cols.releases[i]), Slots(cols.deadlines[i]));
        let bounds = window & size_allowed(as_units(cols.sizes[i]));
        let job = is_grade(cols.grades[i]) & bounds & (carried[i] <= cols.sizes[i]);
        sound = sound & job;
    }
    sound
}

// The readiness at a clock with given carried units: sound if rules 4, 5, 8 and 9 hold, the clock lies
// from the first release to the last deadline, and no counted job has more carried than its size.
pub(crate) fn readiness_of(
    cols: &Columns,
    clock: Slots,
    carried: &[u32; Edition::MOST_JOBS],
) -> Result<Readiness, Reason>
    ensures { result ≡ readiness (plan_on cols.now) clock.0 carried.now }
{
    let jobs = counted_within(cols.count);
    let rules = rates_allowed(cols.n, cols.d)
        & count_allowed(cols.count)
        & jobs_sound(jobs, cols, carried);
    if !rules {
        return Err(Reason::Unsound);
    }
    let first = first_of(&cols.releases, jobs);
    let last = last_of(&cols.deadlines, jobs);
    if (clock.0 < first.0) | (last.0 < clock.0) {
        return Err(Reason::Unsound);
    }
    if clock.0 == last.0 {
        return Ok(Readiness::Over);
    }
    Ok(Readiness::Running)
}
