// Rules 16 and 17: each job's total is exactly its size, and no interval's
// load exceeds the normal rate's capacity.
ghost use Rattle.std.specs.Prelude.{◌≡◌, ◌*◌, ◌-◌, ◌<◌, ltb};
ghost use Rattle.plan.specs.Boundaries.{intervals};
ghost use Rattle.judge.specs.Constraints.{interval_length, load};
ghost use Rattle.judge.specs.Inner.Widths.{most_side};
ghost use Rattle.judge.specs.Verdict.{total_fault, capacity_fault};
ghost use Rattle.judge.specs.Answers.{verdict_view};

use crate::answers::Fault;
use crate::hand::Hand;
use base::sum_of;
use plan::edition::Edition;
use plan::kinds::{Rate, Slots, Units};

// The capacity of a rate from one time to another.
pub(crate) fn capacity(rate: Rate, from: Slots, to: Slots) -> Units
    ensures { (result.0 ≡ rate.0 * (to.0 - from.0)) × (result.0 < most_side) }
{
    rate.over(from.elapsed(to))
}

// Rule 16 over all jobs.
#[tactic(auto, unfolding(plan::specs::Report::first, crate::specs::Verdict::total_fault))]
pub(crate) fn wrong_total(hand: Hand) -> Result<(), Fault>
    ensures { verdict_view result ≡ total_fault hand.entry.plan.now hand.entry.table.now }
{
    let spans = hand.spans() as u32;
    for (i, job) in hand.jobs().iter().enumerate() {
        let total = Units(sum_of(hand.table, Edition::MOST_INTERVALS * i, 1, spans));
        if total.0 != job.size.0 {
            return Err(Fault::WrongTotal(i));
        }
    }
    Ok(())
}

// Whether the load of interval j exceeds the normal rate's capacity.
fn is_over(hand: Hand, j: usize) -> bool
    requires { j < intervals hand.plan.now }
    ensures { result ≡ ltb (hand.entry.plan.now.n.0 * interval_length hand.entry.plan.now j) (load hand.entry.plan.now hand.entry.table.now j) }
{
    let most = capacity(hand.plan.n, Slots(hand.times[j]), Slots(hand.times[j + 1]));
    let jobs = hand.jobs().len() as u32;
    let load = Units(sum_of(hand.table, j, Edition::MOST_INTERVALS, jobs));
    most.0 < load.0
}

// Rule 17 over all intervals.
#[tactic(auto, unfolding(plan::specs::Report::first, crate::specs::Verdict::capacity_fault))]
pub(crate) fn over_capacity(hand: Hand) -> Result<(), Fault>
    ensures { verdict_view result ≡ capacity_fault hand.entry.plan.now hand.entry.table.now }
{
    for j in 0..hand.spans() {
        if is_over(hand, j) {
            return Err(Fault::OverCapacity(j));
        }
    }
    Ok(())
}
