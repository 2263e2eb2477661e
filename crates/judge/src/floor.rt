// Rule 18, the floor rule: from an interval's start to a later HI deadline,
// the demand is at most the floor's capacity.
ghost use Rattle.std.specs.Prelude.{◌≡◌, suc, ◌<◌, min, length};
ghost use Rattle.judge.specs.Inner.Columns.{Summed, asks_more, lowest};
ghost use Rattle.judge.specs.Verdict.{floor_fault};
ghost use Rattle.judge.specs.Answers.{verdict_view};

use crate::answers::Fault;
use crate::hand::Hand;
use crate::rows::{add_due, hi_deadlines_of};
use crate::totals::capacity;
use plan::edition::Edition;
use plan::kinds::{Slots, Units};

// The lesser of `other` and the lowest interval before boundary m from which the column sums
// exceed the floor's capacity.
fn lowered(hand: Hand, sums: &[u64; Edition::MOST_INTERVALS], m: usize, other: usize) -> usize
    requires { (m < length hand.times.now) × Summed hand.plan.now hand.table.now (suc m) sums.now }
    ensures { result ≡ min other (lowest (asks_more hand.entry.plan.now.d.0 sums.now hand.entry.times.now m) other 0 m) }
{
    let time = Slots(hand.times[m]);
    let mut low = other;
    let mut asked = Units(0);
    for l in (0..m).rev() {
        asked = Units(asked.0 + sums[l]);
        let carries = capacity(hand.plan.d, Slots(hand.times[l]), time);
        if carries.0 < asked.0 {
            low = l;
        }
    }
    other.min(low)
}

// Rule 18 over all intervals: the lowest that violates it, with its first such deadline. One pass
// over the boundaries: at each, the rows of the HI jobs due there are added to the column sums, and
// from a HI deadline the intervals are scanned backwards.
pub(crate) fn below_floor(hand: Hand) -> Result<(), Fault>
    ensures { verdict_view result ≡ floor_fault hand.entry.plan.now hand.entry.table.now }
{
    let deadlines = hi_deadlines_of(hand);
    let mut sums = [0u64; Edition::MOST_INTERVALS];
    let mut low = hand.spans();
    let mut verdict = Ok(());
    for m in 0..hand.times.len() {
        if add_due(&mut sums, hand, &deadlines, m) {
            let here = lowered(hand, &sums, m, low);
            if here < low {
                verdict = Err(Fault::BelowFloor(here, Slots(hand.times[m])));
            }
            low = here;
        }
    }
    verdict
}
