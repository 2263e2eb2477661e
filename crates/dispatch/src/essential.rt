// The HI jobs of a slot in which not all claims fit. If what is due to them fits, they need no turns.
ghost use Rattle.std.specs.Prelude.{◌≡◌, true, false, ℕ, ◌-◌, ◌≤◌, ◌<◌, length, get_or};
ghost use Rattle.base.specs.Fill.{filled};
ghost use Rattle.base.specs.Sum.{sum, on};
ghost use Rattle.plan.specs.Edition.{most_jobs, most_deadline};
ghost use Rattle.dispatch.specs.Order.{queue, serve};
ghost use Rattle.dispatch.specs.Inner.Turns.{class_in, rank_in, due_by, KnownDue, Granted};

use crate::claims::{Dues, UNKNOWN};
use crate::turns::{gather, is_of, serve_gathered};
use plan::columns::Columns;
use plan::edition::Edition;
use plan::kinds::{Slots, Units};

// Writes zeros to the grant row.
fn clear_grants(jobs: usize, grants: &mut [u32])
    requires { jobs ≤ length grants.old }
    ensures { grants.new ≡ filled (λ k. 0) jobs grants.old }
{
    grants[..jobs].fill(0);
}

// Writes to the grant row what is due to each HI job in its window, and 0 for the others, in the order of their
// positions and as long as it fits into v. The answer is the sum, which is above v if it does not fit;
// what follows the first job that does not fit stays as it was. Each due that is worked out is noted in
// the claims.
fn grant_hi(
    claims: &mut [u32; Edition::MOST_JOBS],
    jobs: usize,
    v: Units,
    clock: Slots,
    cols: &Columns,
    dues: &Dues,
    grants: &mut [u32],
) -> Units
    requires { (jobs ≤ most_jobs) × (jobs ≤ length grants.old) × ((k : ℕ) → k < jobs → class_in true clock.0 cols.now k ≡ true → KnownDue claims.old (due_by dues.now) k) }
    ensures { Granted (λ k. on (class_in true clock.0 cols.now k) (due_by dues.now k)) v.0 jobs grants.old grants.new result.0 × ((k : ℕ) → KnownDue claims.old (due_by dues.now) k → KnownDue claims.new (due_by dues.now) k) }
{
    let mut total = Units(0);
    for i in 0..jobs {
        if v.0 < total.0 {
            return total;
        }
        let mut due = 0;
        if is_of(true, clock, cols, i) {
            due = dues.claimed(claims, i);
            claims[i] = due;
        }
        grants[i] = due;
        total = Units(total.0 + u64::from(due));
    }
    total
}

// Serves the HI jobs; the answer is what is left of v. If all that is due to them fits, they need no turns.
// That is not looked at under the slow mark, where theirs are the claims that did not fit; nor if the
// claim of the middle job is not known, since those of the first half of the jobs did not fit then, and
// those of the HI jobs hardly will.
pub(crate) fn serve_hi(
    jobs: usize,
    v: Units,
    clock: Slots,
    slow: bool,
    cols: &Columns,
    dues: &Dues,
    claims: &mut [u32; Edition::MOST_JOBS],
    ranks: &mut [u32; Edition::MOST_JOBS],
    grants: &mut [u32],
) -> Units
    requires { (jobs ≤ most_jobs) × (jobs ≤ length grants.old) × ((k : ℕ) → k < jobs → get_or cols.now.deadlines k 0 ≤ most_deadline) × ((k : ℕ) → k < jobs → class_in true clock.0 cols.now k ≡ true → KnownDue claims.old (due_by dues.now) k) }
    ensures { (grants.new ≡ serve (due_by dues.now) v.0 (queue (class_in true clock.0 cols.now) (rank_in cols.now) jobs) (filled (λ k. 0) jobs grants.old)) × (result.0 ≡ v.0 - sum (λ k. on (class_in true clock.0 cols.now k) (due_by dues.now k)) jobs) × ((k : ℕ) → KnownDue claims.old (due_by dues.now) k → KnownDue claims.new (due_by dues.now) k) }
{
    if !slow & (claims[jobs / 2] != UNKNOWN) {
        let total = grant_hi(claims, jobs, v, clock, cols, dues, grants);
        if total.0 <= v.0 {
            return Units(v.0 - total.0);
        }
    }
    clear_grants(jobs, grants);
    let count = gather(true, jobs, clock, cols, ranks);
    serve_gathered(ranks, count, v, dues, claims, grants)
}
