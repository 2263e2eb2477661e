// The soundness of a plan with its table.
ghost use Rattle.std.specs.Prelude.{◌≡◌, ◌+◌, ◌≤◌, min, eqb, get_or, take};
ghost use Rattle.plan.specs.Edition.{most_jobs, most_intervals, places};
ghost use Rattle.base.specs.Below.{every};
ghost use Rattle.plan.specs.Table.{no_stray, sound_within};

use crate::edition::Edition;
use crate::kinds::Plan;
use crate::rules::{counted_of, rules_hold};

// Whether the `count` entries from index `start` on are 0; entries past the end count as 0.
// It scans all of them, which is faster than stopping early.
fn all_zero(table: &[u32], start: usize, count: usize) -> bool
    requires { start + count ≤ places }
    ensures { result ≡ every (λ k. eqb (get_or table.now (start + k) 0) 0) count }
{
    let mut zero = true;
    for q in start..(start + count).min(table.len()) {
        zero = zero & (table[q] == 0);
    }
    zero
}

// Whether each of the table's own places is 0 unless its job is below `jobs`
// and its interval below `spans`.
#[tactic(auto, using(base::proofs::Below::every_start, base::proofs::Below::every_next))]
fn no_stray(table: &[u32], jobs: usize, spans: usize) -> bool
    requires { (jobs ≤ most_jobs) × (spans ≤ most_intervals) }
    ensures { result ≡ no_stray most_intervals jobs spans 0 (take places table.now) }
{
    let rest = Edition::MOST_INTERVALS - spans;
    let mut clear = true;
    for i in 0..jobs {
        clear = clear & all_zero(table, Edition::MOST_INTERVALS * i + spans, rest);
    }
    let used = Edition::MOST_INTERVALS * jobs;
    clear & all_zero(table, used, Edition::PLACES - used)
}

// Whether rules 4 to 9 hold and each of the table's own places is 0 unless its job is counted and its
// interval below `spans`. With the plan's number of intervals this is soundness for judge and writer.
pub fn sound_within(p: Plan, table: &[u32], spans: usize) -> bool
    ensures { result ≡ sound_within (min spans most_intervals) p table.now }
{
    let held = spans.min(Edition::MOST_INTERVALS);
    rules_hold(p) & no_stray(table, counted_of(p), held)
}
