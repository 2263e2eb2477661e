// The slack of a pair, and the slack figure of a plan.
ghost use Rattle.std.specs.Prelude.{◌≡◌, suc, ◌<◌, length, Some};
ghost use Rattle.std.proofs.Math.IntN.{sub_ℕ};
ghost use Rattle.judge.specs.Inner.Widths.{most_side};
ghost use Rattle.judge.specs.Slack.{least_slack};
ghost use Rattle.judge.specs.Inner.Columns.{Summed, sooner, column_taken};
ghost use Rattle.judge.specs.Answers.{found_view, Measures, MeasuresPair};

use crate::answers::{Fault, Least};
use crate::faults::refusal_of;
use crate::hand::Hand;
use crate::pair::{demand_of, start_of};
use crate::rows::{add_due, hi_deadlines_of};
use crate::totals::capacity;
use plan::boundaries::boundaries_of;
use plan::edition::Edition;
use plan::kinds::{Plan, Slots, Units};

// The slack: the floor's capacity less the demand.
fn slack_from(carries: Units, asked: Units) -> i64
    requires { (carries.0 < most_side) × (asked.0 < most_side) }
    ensures { result ≡ sub_ℕ carries.0 asked.0 }
{
    carries.0 as i64 - asked.0 as i64
}

// The slack of an interval and a deadline, for any plan, table, interval and time: the floor's capacity
// from the interval's start (0 past the last boundary) to the deadline, less the demand. The capacity is
// 0 if the deadline is not later. Both are below 2^62, so nothing overflows.
pub fn slack_of(p: Plan, table: &[u32], interval: usize, deadline: Slots) -> i64
    ensures { MeasuresPair p table.now interval deadline result }
{
    let carries = capacity(p.d, start_of(&p, interval), deadline);
    let asked = demand_of(&p, table, interval, deadline);
    slack_from(carries, asked)
}

// The lesser of the figure so far and a pair at a deadline no earlier; if the slacks are equal, the
// lower interval; if the intervals are equal too, the figure so far.
fn sooner_of(known: Option<Least>, next: Least) -> Least
    ensures { found_view (Some result) ≡ sooner (found_view known) next.slack next.interval next.deadline.0 }
{
    match known {
        None => next,
        Some(best) => {
            if (next.slack < best.slack)
                | (next.slack <= best.slack) & (next.interval < best.interval)
            {
                next
            } else {
                best
            }
        }
    }
}

// The figure `known`, updated with boundary m and every interval before it, from the last to
// the first. The loop keeps the column's least slack in plain numbers, starting above every
// slack, and the figure is updated once after it: a third of the instructions per pair.
fn column_taken_in(
    hand: Hand,
    sums: &[u64; Edition::MOST_INTERVALS],
    m: usize,
    known: Option<Least>,
) -> Option<Least>
    requires { (m < length hand.times.now) × Summed hand.plan.now hand.table.now (suc m) sums.now }
    ensures { found_view result ≡ column_taken hand.entry.plan.now.d.0 sums.now hand.entry.times.now m m (found_view known) }
{
    // No interval lies before boundary 0, so there is no slack.
    if m == 0 {
        return known;
    }
    let deadline = Slots(hand.times[m]);
    let mut slack = i64::MAX;
    let mut interval = m;
    let mut asked = Units(0);
    for l in (0..m).rev() {
        asked = Units(asked.0 + sums[l]);
        let carries = capacity(hand.plan.d, Slots(hand.times[l]), deadline);
        let here = slack_from(carries, asked);
        if here <= slack {
            slack = here;
            interval = l;
        }
    }
    Some(sooner_of(
        known,
        Least {
            slack,
            interval,
            deadline,
        },
    ))
}

// The least slack over all pairs, in one pass over the boundaries: at each, the rows of the HI jobs
// due there are added to the column sums, and from a HI deadline the intervals are scanned backwards.
// `below_floor` has the same loop: no clause of a closure could keep what each pass has found so far.
fn least_slack(hand: Hand) -> Option<Least>
    ensures { found_view result ≡ least_slack hand.entry.plan.now hand.entry.table.now }
{
    let deadlines = hi_deadlines_of(hand);
    let mut sums = [0u64; Edition::MOST_INTERVALS];
    let mut best = None;
    for m in 0..hand.times.len() {
        if add_due(&mut sums, hand, &deadlines, m) {
            best = column_taken_in(hand, &sums, m, best);
        }
    }
    best
}

// The slack figure of a plan and its table.
#[tactic(auto, unfolding(crate::specs::Slack::slack_figure))]
pub fn slack(p: Plan, table: &[u32]) -> Result<Option<Least>, Fault>
    ensures { Measures p table.now result }
{
    let b = boundaries_of(p);
    let hand = refusal_of(&p, table, &b.times[..b.count])?;
    Ok(least_slack(hand))
}
