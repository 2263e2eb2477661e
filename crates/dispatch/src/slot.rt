// One slot of a sound run: the grants. If all claims fit into the speed, each is granted. Otherwise, with the slow
// mark clear and a speed below n, the mark is set and the slot begins anew under it; in all other cases the jobs get
// their turns.
// What shares a slot out is put into its callers (`inline(always)`, here and in claims): as calls, a slot of a shift with few jobs
// would take a third more.
ghost use Rattle.std.specs.Prelude.{◌≡◌, true, false, cond, ◌||◌, ℕ, suc, ◌+◌, ◌≤◌, ◌<◌, ◌^◌, min, ltb, length, get_or};
ghost use Rattle.base.specs.Fill.{filled};
ghost use Rattle.plan.specs.Edition.{most_jobs, most_rate, most_deadline};
ghost use Rattle.plan.specs.Boundaries.{present};
ghost use Rattle.plan.specs.Rules.{counted, release, deadline};
ghost use Rattle.plan.specs.declared.kinds.Plan.{Plan};
ghost use Rattle.dispatch.specs.Inner.Columns.{plan_on};
ghost use Rattle.dispatch.specs.Inner.Shares.{settled_run, Shared};
ghost use Rattle.dispatch.specs.Inner.Turns.{settled_in, served_in, Goals, goal_by, due_by, KnownDue, in_turns};
ghost use Rattle.dispatch.specs.Answers.{run_at};
ghost use Rattle.dispatch.specs.Dues.{slow_after};
ghost use Rattle.dispatch.specs.Step.{slot_sound, granted, advanced};

use crate::Moment;
use crate::claims::{Dues, GoalColumn, UNKNOWN, all_fit};
use crate::essential::serve_hi;
use crate::turns::{gather, serve_gathered};
use plan::boundaries::begun_by;
use plan::columns::Columns;
use plan::edition::Edition;
use plan::kinds::{Rate, Slots, Units};
use plan::rules::counted_within;

// Writes the claims to the grant row.
fn grant_claims(claims: &[u32; Edition::MOST_JOBS], jobs: usize, grants: &mut [u32])
    requires { (jobs ≤ most_jobs) × (jobs ≤ length grants.old) }
    ensures { grants.new ≡ filled (λ k. get_or claims.now k 0) jobs grants.old }
{
    grants[..jobs].copy_from_slice(&claims[..jobs]);
}

// What a job counts as carried in a slot: its size if it has ended, so that nothing is due to it.
fn settled_of(ended: bool, size: u32, carried: u32) -> u32
    ensures { result ≡ cond ended size carried }
{
    if ended { size } else { carried }
}

// What the jobs count as carried in a slot, written over a row.
fn settle(
    ended: &[bool; Edition::MOST_JOBS],
    sizes: &[u32; Edition::MOST_JOBS],
    carried: &[u32; Edition::MOST_JOBS],
    settled: &mut [u32; Edition::MOST_JOBS],
)
    ensures { settled.new ≡ filled (settled_in ended.now sizes.now carried.now) most_jobs settled.old }
{
    for i in 0..Edition::MOST_JOBS {
        settled[i] = settled_of(ended[i], sizes[i], carried[i]);
    }
}

// Adds the grants to the carried units.
fn carry_grants(carried: &mut [u32; Edition::MOST_JOBS], jobs: usize, grants: &[u32])
    requires { (jobs ≤ most_jobs) × (jobs ≤ length grants.now) × ((k : ℕ) → k < jobs → get_or carried.old k 0 + get_or grants.now k 0 < 2 ^ 32) }
    ensures { carried.new ≡ filled (λ k. get_or carried.old k 0 + get_or grants.now k 0) jobs carried.old }
{
    for i in 0..jobs {
        carried[i] += grants[i];
    }
}

// The below-floor mark after a slot: a speed below the floor sets it, and nothing clears it.
fn below_after(was: bool, v: Rate, floor: Rate) -> bool
    ensures { result ≡ (was || ltb v.0 floor.0) }
{
    was | (v.0 < floor.0)
}

// The HI jobs are served, and then the others in turns with what is left, unless the slow mark is set.
// Claims that are known are not worked out again.
fn serve_in_turns(
    jobs: usize,
    v: Units,
    clock: Slots,
    slow: bool,
    cols: &Columns,
    dues: &Dues,
    claims: &mut [u32; Edition::MOST_JOBS],
    grants: &mut [u32],
)
    requires { (jobs ≤ most_jobs) × (jobs ≤ length grants.old) × ((k : ℕ) → k < jobs → get_or cols.now.deadlines k 0 ≤ most_deadline) × ((k : ℕ) → k < jobs → served_in clock.0 slow cols.now k ≡ true → KnownDue claims.old (due_by dues.now) k) }
    ensures { grants.new ≡ in_turns clock.0 slow cols.now (due_by dues.now) v.0 jobs (filled (λ k. 0) jobs grants.old) }
{
    let mut ranks = [0u32; Edition::MOST_JOBS];
    let rest = serve_hi(jobs, v, clock, slow, cols, dues, claims, &mut ranks, grants);
    if slow | (rest.0 == 0) {
        return;
    }
    let others = gather(false, jobs, clock, cols, &mut ranks);
    serve_gathered(&mut ranks, others, rest, dues, claims, grants);
}

// The number of intervals begun; 0 under the slow mark, for which it stands in a shift.
pub(crate) fn spans_of(slow: bool, cols: &Columns, clock: Slots) -> u32
    ensures { (slow ≡ true → result ≡ 0) × ((p : Plan) → slow ≡ false → p.count ≡ cols.now.count → ((i : ℕ) → i < counted p → get_or cols.now.releases i 0 ≡ release p i) → ((i : ℕ) → i < counted p → get_or cols.now.deadlines i 0 ≡ deadline p i) → result ≡ suc (present p clock.0)) }
{
    if slow {
        return 0;
    }
    begun_by(cols.count, &cols.releases, &cols.deadlines, clock) as u32
}

// Writes the grants of a slot at speed v with the slow mark as `slow` says: the claims if all of them fit, otherwise what
// the jobs get in turns. With the mark clear, claims that do not fit into a speed below n make the slot a slow one: then
// nothing is written. The answer is whether the grants were written.
#[inline(always)]
fn share_under(
    cols: &Columns,
    v: Rate,
    clock: Slots,
    slow: bool,
    dues: &Dues,
    grants: &mut [u32],
) -> bool
    requires { (min cols.now.count most_jobs ≤ length grants.old) × ((k : ℕ) → k < min cols.now.count most_jobs → get_or cols.now.deadlines k 0 ≤ most_deadline) × (v.0 ≤ most_rate) × Goals cols.now dues.now.goals.table.now clock slow (goal_by dues.now.goals) }
    ensures { Shared (plan_on cols.now) dues.now.goals.table.now (settled_run clock slow dues.now.carried.now) v.0 grants.old result grants.new }
{
    let jobs = counted_within(cols.count);
    let most = v.over(Slots(1));
    let mut claims = [UNKNOWN; Edition::MOST_JOBS];
    if all_fit(&mut claims, jobs, most, clock, slow, cols, dues) {
        grant_claims(&claims, jobs, grants);
        return true;
    }
    if !slow & (v.0 < cols.n.0) {
        return false;
    }
    serve_in_turns(jobs, most, clock, slow, cols, dues, &mut claims, grants);
    true
}

// Writes the grants of a slot at speed v that is not refused, and answers the slow mark after it. The slot that sets the
// mark is served under it: then the sizes are the goals.
#[inline(always)]
fn share_out(
    cols: &Columns,
    v: Rate,
    clock: Slots,
    slow: bool,
    dues: &Dues,
    grants: &mut [u32],
) -> bool
    requires { (min cols.now.count most_jobs ≤ length grants.old) × ((k : ℕ) → k < min cols.now.count most_jobs → get_or cols.now.deadlines k 0 ≤ most_deadline) × (v.0 ≤ most_rate) × Goals cols.now dues.now.goals.table.now clock slow (goal_by dues.now.goals) }
    ensures { (result ≡ slow_after (plan_on cols.now) dues.now.goals.table.now (settled_run clock slow dues.now.carried.now) v.0) × (grants.new ≡ granted (plan_on cols.now) dues.now.goals.table.now (settled_run clock slow dues.now.carried.now) v.0 grants.old) }
{
    if share_under(cols, v, clock, slow, dues, grants) {
        return slow;
    }
    let sizes = GoalColumn {
        at_once: dues.goals.at_once,
        whole: true,
        spans: 0,
        goals: &cols.sizes,
        table: dues.goals.table,
    };
    let left = Dues {
        goals: sizes,
        carried: dues.carried,
    };
    share_under(cols, v, clock, true, &left, grants);
    true
}

// Carries a slot at speed v, not above n, of a sound run with the goals of the slot: writes the grants, adds them to the
// carried units, and answers the rest of the run.
#[inline(always)]
pub(crate) fn carry_slot(
    cols: &Columns,
    v: Rate,
    at: Moment,
    goals: &GoalColumn,
    ended: &[bool; Edition::MOST_JOBS],
    carried: &mut [u32; Edition::MOST_JOBS],
    grants: &mut [u32],
) -> Moment
    requires { (slot_sound (plan_on cols.now) (run_at at carried.old ended.now) ≡ true) × (min cols.now.count most_jobs ≤ length grants.old) × (v.0 ≤ cols.now.n.0) × Goals cols.now goals.now.table.now at.clock at.slow (goal_by goals.now) }
    ensures { (run_at result carried.new ended.now ≡ advanced (plan_on cols.now) goals.now.table.now (run_at at carried.old ended.now) v.0 grants.old) × (grants.new ≡ granted (plan_on cols.now) goals.now.table.now (run_at at carried.old ended.now) v.0 grants.old) }
{
    let jobs = counted_within(cols.count);
    let below = below_after(at.below, v, cols.d);
    let mut settled = [0u32; Edition::MOST_JOBS];
    settle(ended, &cols.sizes, carried, &mut settled);
    let dues = Dues {
        goals: *goals,
        carried: &settled,
    };
    let slow = share_out(cols, v, at.clock, at.slow, &dues, grants);
    carry_grants(carried, jobs, grants);
    Moment {
        clock: Slots(at.clock.0 + 1),
        slow,
        below,
    }
}
