// A job's claim on a slot: its due if it is served, otherwise 0.
ghost use Rattle.std.specs.Prelude.{◌≡◌, true, not, ◌&&◌, ◌||◌, ◌≤◌, ◌<◌, replicate, leb, ltb, eqb, get_or};
ghost use Rattle.plan.specs.Edition.{most_jobs};
ghost use Rattle.plan.specs.Rules.{hi};
ghost use Rattle.dispatch.specs.Inner.Turns.{served_in, goal_by, due_by, claim_by, unknown, KnownDue, Claimed};

use base::sum_of;
use plan::columns::Columns;
use plan::edition::Edition;
use plan::kinds::{HI, Slots, Units};

// The entry of a row of claims whose claim is not known yet. A claim that is as great would only be
// worked out once more.
pub(crate) const UNKNOWN: u32 = u32::MAX;

// A column of goals: they are whole, or cut at the allotments of the intervals begun. In a shift claims on whole goals are
// worked out all at once.
#[derive(Clone, Copy)]
pub(crate) struct GoalColumn<'a> {
    pub(crate) at_once: bool,
    pub(crate) whole: bool,
    pub(crate) spans: u32,
    pub(crate) goals: &'a [u32; Edition::MOST_JOBS],
    pub(crate) table: &'a [u32],
}

impl GoalColumn<'_> {
    // The goal of job i. If the column has the whole goal, no row is added up.
    pub(crate) fn at(&self, i: usize) -> u32
        requires { i < most_jobs }
        ensures { result ≡ goal_by self.now i }
    {
        if self.whole {
            return self.goals[i];
        }
        let allotted = sum_of(self.table, Edition::MOST_INTERVALS * i, 1, self.spans);
        u64::from(self.goals[i]).min(allotted) as u32
    }
}

// What the dues of a slot are worked out from: the goals, and what the jobs count as carried.
#[derive(Clone, Copy)]
pub(crate) struct Dues<'a> {
    pub(crate) goals: GoalColumn<'a>,
    pub(crate) carried: &'a [u32; Edition::MOST_JOBS],
}

impl Dues<'_> {
    // What is due to job i: what is left of its goal, or 0 if more is carried.
    fn of(&self, i: usize) -> u32
        requires { i < most_jobs }
        ensures { result ≡ due_by self.now i }
    {
        self.goals.at(i).saturating_sub(self.carried[i])
    }

    // What is due to a served job: its claim if it is known, otherwise worked out.
    pub(crate) fn claimed(&self, claims: &[u32; Edition::MOST_JOBS], i: usize) -> u32
        requires { (i < most_jobs) × KnownDue claims.now (due_by self.now) i }
        ensures { result ≡ due_by self.now i }
    {
        let known = claims[i];
        if known != UNKNOWN {
            return known;
        }
        self.of(i)
    }
}

// Whether job i is served: it is in its window, and HI if the slow mark is set.
pub(crate) fn is_served(cols: &Columns, clock: Slots, slow: bool, i: usize) -> bool
    requires { i < most_jobs }
    ensures { result ≡ served_in clock.0 slow cols.now i }
{
    (cols.releases[i] <= clock.0)
        & (clock.0 < cols.deadlines[i])
        & ((cols.grades[i] == HI as u32) | !slow)
}

// Writes the claims of all jobs, if the goals are whole, and tells whether they fit into v. No row is added up for a claim
// then, so in the many slots of a shift looking at all of them is faster than stopping at the first that does not fit. What
// is due is worked out whether a job is served or not, and the columns are named before the loop: so several jobs are
// looked at at once.
fn claim_all(
    claims: &mut [u32; Edition::MOST_JOBS],
    jobs: usize,
    v: Units,
    clock: Slots,
    slow: bool,
    cols: &Columns,
    dues: &Dues,
) -> bool
    requires { (jobs ≤ most_jobs) × (dues.now.goals.whole ≡ true) × (claims.old ≡ replicate most_jobs unknown) }
    ensures { Claimed (claim_by clock.0 slow cols.now dues.now) v.0 jobs claims.new result }
{
    let goals = dues.goals.goals;
    let carried = dues.carried;
    let mut sum = 0;
    for i in 0..jobs {
        let served = is_served(cols, clock, slow, i);
        let due = goals[i].saturating_sub(carried[i]);
        let claim = if served { due } else { 0 };
        claims[i] = claim;
        sum += u64::from(claim);
    }
    sum <= v.0
}

// Writes the claims of the jobs in the order of their positions as long as they fit into v, and tells
// whether all of them do. What follows the first claim that does not fit stays as it was, unless claims are worked out at once.
#[inline(always)]
pub(crate) fn all_fit(
    claims: &mut [u32; Edition::MOST_JOBS],
    jobs: usize,
    v: Units,
    clock: Slots,
    slow: bool,
    cols: &Columns,
    dues: &Dues,
) -> bool
    requires { (jobs ≤ most_jobs) × (v.0 ≤ unknown) × (claims.old ≡ replicate most_jobs unknown) }
    ensures { Claimed (claim_by clock.0 slow cols.now dues.now) v.0 jobs claims.new result }
{
    if dues.goals.at_once & dues.goals.whole {
        return claim_all(claims, jobs, v, clock, slow, cols, dues);
    }
    let mut total = 0;
    for i in 0..jobs {
        if v.0 < total {
            return false;
        }
        let claim = if is_served(cols, clock, slow, i) {
            dues.of(i)
        } else {
            0
        };
        claims[i] = claim;
        total += u64::from(claim);
    }
    total <= v.0
}
