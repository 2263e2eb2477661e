// The parts of a pair's slack: the start of an interval, and the demand from it to a time.
ghost use Rattle.std.specs.Prelude.{◌≡◌, ◌&&◌, ◌+◌, ◌*◌, ◌≤◌, ◌<◌, leb};
ghost use Rattle.base.specs.Sum.{sum, on, strided};
ghost use Rattle.plan.specs.Edition.{most_intervals};
ghost use Rattle.plan.specs.Rules.{counted, deadline, is_hi};
ghost use Rattle.plan.specs.Boundaries.{boundary};
ghost use Rattle.judge.specs.Constraints.{demand};
ghost use Rattle.judge.specs.Inner.Widths.{most_at_place, most_side};

use base::sum_of;
use plan::boundaries::{boundaries_of, present_of};
use plan::edition::Edition;
use plan::kinds::{HI, Plan, Slots, Units};
use plan::rules::counted_within;

// The units of HI jobs with deadline at most `time` in the `count` intervals from l on.
fn hi_units(p: &Plan, table: &[u32], l: usize, count: u32, time: u32) -> Units
    requires { (l ≤ most_intervals) × (count ≤ most_intervals) }
    ensures { (result.0 ≡ sum (λ i. on (is_hi p.now i && leb (deadline p.now i) time) (sum (strided table.now (most_intervals * i + l) 1) count)) (counted p.now)) × (result.0 ≤ counted p.now * (most_intervals * most_at_place)) }
{
    let mut total = Units(0);
    for (i, job) in p.jobs[..counted_within(p.count)].iter().enumerate() {
        if (job.grade == HI) & (job.deadline.0 <= time) {
            let units = sum_of(table, Edition::MOST_INTERVALS * i + l, 1, count);
            total = Units(total.0 + units);
        }
    }
    total
}

// The demand from an interval to a time: the units of HI jobs with deadline at or before that time,
// in the intervals that end at or before it.
#[tactic(auto, using(crate::proofs::HandFault::few_present))]
pub(crate) fn demand_of(p: &Plan, table: &[u32], interval: usize, time: Slots) -> Units
    ensures { (result.0 ≡ demand p.now table.now interval time.0) × (result.0 < most_side) }
{
    let ended = present_of(*p, time);
    if ended <= interval {
        return Units(0);
    }
    hi_units(p, table, interval, (ended - interval) as u32, time.0)
}

// The boundary at which an interval starts; 0 if the plan has no such boundary.
pub(crate) fn start_of(p: &Plan, interval: usize) -> Slots
    ensures { result.0 ≡ boundary p.now interval }
{
    Slots(boundaries_of(*p).times.get(interval).copied().unwrap_or(0))
}
