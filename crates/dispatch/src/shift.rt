// A shift: slots at several speeds in one call. What is known of the plan is looked at once, and the goals of the jobs
// are worked out anew only when an interval begins or the slow mark was set.
ghost use Rattle.std.specs.Prelude.{◌≡◌, true, List, [], ℕ, ◌*◌, ◌-◌, ◌≤◌, ◌<◌, min, length, get_or};
ghost use Rattle.base.specs.Fill.{filled};
ghost use Rattle.base.specs.Sum.{sum, on};
ghost use Rattle.plan.specs.Boundaries.{last_deadline};
ghost use Rattle.plan.specs.Edition.{most_jobs, most_deadline, most_speeds, places};
ghost use Rattle.dispatch.specs.Inner.Columns.{plan_on};
ghost use Rattle.dispatch.specs.Inner.Shares.{settled_run, Shared};
ghost use Rattle.dispatch.specs.Inner.Turns.{goal_in, Goals, kept_goal, KeepsGoals, claim_in, unknown};
ghost use Rattle.std.specs.Result.{result_unwrap_or};
ghost use Rattle.dispatch.specs.Answers.{answer_view, run_at, Shifts, ShiftsOver};
ghost use Rattle.dispatch.specs.Dues.{slow_after};
ghost use Rattle.dispatch.specs.Step.{slot_sound, granted, advanced, stepped};
ghost use Rattle.dispatch.specs.Shift.{slots_from};

use crate::answers::number_of;
use crate::claims::GoalColumn;
use crate::slot::{carry_slot, spans_of};
use crate::soundness::{last_of, readiness_of};
use crate::{Moment, Run};
use plan::columns::Columns;
use plan::edition::Edition;
use plan::kinds::{Plan, Rate, Slots};
use plan::refusal::Reason;
use plan::rules::counted_within;

// The goals of the jobs that a shift keeps, and the number of intervals begun for which they are: none stands for the
// slow mark, under which the sizes are the goals.
#[derive(Clone, Copy)]
struct Kept {
    spans: u32,
    goals: [u32; Edition::MOST_JOBS],
}

impl Kept {
    // The goals of the jobs when `spans` intervals have begun.
    fn of(jobs: usize, spans: u32, sizes: &[u32; Edition::MOST_JOBS], table: &[u32]) -> Kept
        requires { jobs ≤ most_jobs }
        ensures { (result.spans ≡ spans) × KeepsGoals jobs spans sizes.now table.now result.goals }
    {
        let whole = spans == 0;
        let column = GoalColumn {
            at_once: true,
            whole,
            spans,
            goals: sizes,
            table,
        };
        let mut goals = [0u32; Edition::MOST_JOBS];
        for i in 0..jobs {
            goals[i] = column.at(i);
        }
        Kept { spans, goals }
    }

    // The goals for `begun` intervals, worked out anew if they are not those that are kept.
    fn renew(&mut self, jobs: usize, begun: u32, sizes: &[u32; Edition::MOST_JOBS], table: &[u32])
        requires { (jobs ≤ most_jobs) × KeepsGoals jobs self.old.spans sizes.now table.now self.old.goals }
        ensures { (self.new.spans ≡ begun) × KeepsGoals jobs begun sizes.now table.now self.new.goals }
    {
        if begun != self.spans {
            *self = Kept::of(jobs, begun, sizes, table);
        }
    }
}

// The slot's call at speed v of a sound run, with buffers that are long enough.
fn next_slot(
    cols: &Columns,
    last: Slots,
    v: u16,
    at: Moment,
    kept: &mut Kept,
    table: &[u32],
    ended: &[bool; Edition::MOST_JOBS],
    carried: &mut [u32; Edition::MOST_JOBS],
    grants: &mut [u32],
) -> Result<Moment, Reason>
    requires { (slot_sound (plan_on cols.now) (run_at at carried.old ended.now) ≡ true) × (last.0 ≡ last_deadline (plan_on cols.now)) × (places ≤ length table.now) × (min cols.now.count most_jobs ≤ length grants.old) × KeepsGoals (min cols.now.count most_jobs) kept.old.spans cols.now.sizes table.now kept.old.goals }
    ensures { (record { answer = answer_view result; run = run_at (result_unwrap_or result at) carried.new ended.now; grants = grants.new } ≡ stepped (plan_on cols.now) table.now (run_at at carried.old ended.now) v grants.old) × KeepsGoals (min cols.now.count most_jobs) kept.new.spans cols.now.sizes table.now kept.new.goals }
{
    if at.clock.0 == last.0 {
        return Err(Reason::ClockAtEnd);
    }
    if cols.n.0 < v {
        return Err(Reason::SpeedAboveNormal);
    }
    let begun = spans_of(at.slow, cols, at.clock);
    kept.renew(counted_within(cols.count), begun, &cols.sizes, table);
    let goals = GoalColumn {
        at_once: true,
        whole: true,
        spans: 0,
        goals: &kept.goals,
        table,
    };
    Ok(carry_slot(cols, Rate(v), at, &goals, ended, carried, grants))
}

// The slots' calls at the speeds, one after the other, of a sound run and with buffers that are long enough. The answer
// is the run but for its carried units.
fn carry_speeds(
    cols: &Columns,
    at: Moment,
    table: &[u32],
    speeds: &[u16],
    ended: &[bool; Edition::MOST_JOBS],
    carried: &mut [u32; Edition::MOST_JOBS],
    rows: &mut [u32],
    numbers: &mut [u8],
) -> Moment
    requires { (slot_sound (plan_on cols.now) (run_at at carried.old ended.now) ≡ true) × (places ≤ length table.now) × (length speeds.now ≤ most_speeds) × (length speeds.now * min cols.now.count most_jobs ≤ length rows.old) × (length speeds.now ≤ length numbers.old) }
    ensures { record { answer = []; run = run_at result carried.new ended.now; rows = rows.new; numbers = numbers.new } ≡ slots_from (plan_on cols.now) table.now 0 speeds.now (run_at at carried.old ended.now) rows.old numbers.old }
{
    let jobs = counted_within(cols.count);
    let last = last_of(&cols.deadlines, jobs);
    let mut kept = Kept::of(jobs, 0, &cols.sizes, table);
    let mut next = at;
    for (k, v) in speeds.iter().enumerate() {
        let row = &mut rows[k * jobs..];
        let slot = next_slot(cols, last, *v, next, &mut kept, table, ended, carried, row);
        numbers[k] = number_of(&slot);
        next = slot.unwrap_or(next);
    }
    next
}

// Carries a slot at each of the speeds, for a plan whose columns are lent: row k of the grants begins at k times the
// job count, and number k is 0 or that of a refused slot, which leaves its row. 21 on the grounds of a slot's 21, 27 for
// more than 256 speeds, 22 for a buffer that is too short: then nothing is changed.
pub fn shift_over(
    cols: &Columns,
    table: &[u32],
    at: Moment,
    speeds: &[u16],
    ended: &[bool; Edition::MOST_JOBS],
    carried: &mut [u32; Edition::MOST_JOBS],
    rows: &mut [u32],
    numbers: &mut [u8],
) -> Result<Moment, Reason>
    ensures { ShiftsOver cols.now table.now at speeds.now ended.now carried.old rows.old numbers.old result carried.new rows.new numbers.new }
{
    readiness_of(cols, at.clock, carried)?;
    if Edition::MOST_SPEEDS < speeds.len() {
        return Err(Reason::TooManySpeeds);
    }
    let jobs = counted_within(cols.count);
    if (table.len() < Edition::PLACES)
        | (rows.len() < speeds.len() * jobs)
        | (numbers.len() < speeds.len())
    {
        return Err(Reason::BufferTooShort);
    }
    Ok(carry_speeds(cols, at, table, speeds, ended, carried, rows, numbers))
}

// Carries a slot at each of the speeds, or refuses. A size that has no room in a column is too large for rule 9.
pub fn shift(
    p: Plan,
    table: &[u32],
    run: Run,
    speeds: &[u16],
    rows: &mut [u32],
    numbers: &mut [u8],
) -> Result<Run, Reason>
    ensures { Shifts p table.now run speeds.now rows.old numbers.old result rows.new numbers.new }
{
    let mut cols = Columns::EMPTY;
    cols.put(p)?;
    let mut carried = run.carried;
    let next = shift_over(
        &cols,
        table,
        run.moment(),
        speeds,
        &run.ended,
        &mut carried,
        rows,
        numbers,
    )?;
    Ok(next.with(carried, run.ended))
}
