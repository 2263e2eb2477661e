// Rule 15: no job has units outside its window.
ghost use Rattle.std.specs.Prelude.{◌≡◌, not, ◌&&◌, ◌||◌, [], ◌∷◌, ◌<◌, leb, eqb, length, get_or};
ghost use Rattle.plan.specs.Refusal.{outside_window};
ghost use Rattle.base.specs.Below.{every};
ghost use Rattle.judge.specs.Constraints.{within};
ghost use Rattle.judge.specs.Verdict.{outside_fault};
ghost use Rattle.plan.specs.Report.{first, fault};
ghost use Rattle.judge.specs.Answers.{verdict_view};

use crate::answers::Fault;
use crate::hand::Hand;
use plan::kinds::{Job, Slots, Units};

// Whether the interval between two times lies inside a job's window or has 0 units.
fn place_inside(job: &Job, from: Slots, to: Slots, units: Units) -> bool
    ensures { result ≡ (leb job.now.release.0 from.0 && leb to.0 job.now.deadline.0 || eqb units.0 0) }
{
    (job.release.0 <= from.0) & (to.0 <= job.deadline.0) | (units.0 == 0)
}

// Whether every interval of a row lies inside the job's window or has 0 units. It tests them
// all, which is faster than stopping early.
#[tactic(auto, unfolding(base::specs::Below::every))]
fn row_inside(job: &Job, row: &[u32], times: &[u32]) -> bool
    requires { length row.now < length times.now }
    ensures { result ≡ every (λ j. within times.now job.now.release.0 job.now.deadline.0 j || eqb (get_or row.now j 0) 0) (length row.now) }
{
    let mut inside = true;
    for (j, stored) in row.iter().enumerate() {
        let units = Units(u64::from(*stored));
        inside = inside & place_inside(job, Slots(times[j]), Slots(times[j + 1]), units);
    }
    inside
}

// The first interval of job i's row with units outside the window.
#[tactic(auto, unfolding(plan::specs::Report::first))]
fn outside_in_row(i: usize, job: &Job, row: &[u32], times: &[u32]) -> Result<(), Fault>
    requires { length row.now < length times.now }
    ensures { verdict_view result ≡ first (λ j. fault (not (within times.now job.now.release.0 job.now.deadline.0 j || eqb (get_or row.now j 0) 0)) (outside_window ∷ i ∷ j ∷ [])) (length row.now) }
{
    for (j, stored) in row.iter().enumerate() {
        let units = Units(u64::from(*stored));
        if !place_inside(job, Slots(times[j]), Slots(times[j + 1]), units) {
            return Err(Fault::OutsideWindow(i, j));
        }
    }
    Ok(())
}

// Rule 15 over all jobs. A row is searched for its first interval only if the row as a whole fails.
#[tactic(auto, unfolding(plan::specs::Report::first, crate::specs::Verdict::outside_fault))]
pub(crate) fn outside_window(hand: Hand) -> Result<(), Fault>
    ensures { verdict_view result ≡ outside_fault hand.entry.plan.now hand.entry.table.now }
{
    for (i, job) in hand.jobs().iter().enumerate() {
        let row = hand.row(i);
        if !row_inside(job, row, hand.times) {
            return outside_in_row(i, job, row, hand.times);
        }
    }
    Ok(())
}
