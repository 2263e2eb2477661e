// Shared by the passes over the boundaries: the row of HI deadlines, and rows added to column sums.
ghost use Rattle.std.specs.Prelude.{◌≡◌, ℕ, suc, ◌+◌, ◌≤◌, ◌<◌, length, get_or};
ghost use Rattle.plan.specs.Boundaries.{boundary};
ghost use Rattle.judge.specs.Inner.Widths.{most_side};
ghost use Rattle.judge.specs.Inner.Columns.{HiDeadlines, Summed};
ghost use Rattle.judge.specs.Verdict.{is_hi_deadline};

use crate::hand::Hand;
use plan::boundaries::is_absent_time;
use plan::edition::Edition;
use plan::kinds::HI;

// The deadline of each counted HI job at its record's index; other
// records get a time that no sound plan reaches.
pub(crate) fn hi_deadlines_of(hand: Hand) -> [u32; Edition::MOST_JOBS]
    ensures { HiDeadlines hand.entry.plan.now result }
{
    let mut row = [u32::MAX; Edition::MOST_JOBS];
    for (i, job) in hand.jobs().iter().enumerate() {
        if job.grade == HI {
            row[i] = job.deadline.0;
        }
    }
    row
}

// Adds a row to the first column sums.
fn add_row(sums: &mut [u64; Edition::MOST_INTERVALS], row: &[u32])
    requires { (length row.now ≤ length sums.old) × ((j : ℕ) → j < length row.now → get_or sums.old j 0 ≤ most_side) }
    ensures { (j : ℕ) → j < length row.now → get_or sums.new j 0 ≡ get_or sums.old j 0 + get_or row.now j 0 }
{
    for (j, units) in row.iter().enumerate() {
        sums[j] += u64::from(*units);
    }
}

// Adds the rows of the HI jobs that are due at boundary m to the column sums; whether there are any.
pub(crate) fn add_due(
    sums: &mut [u64; Edition::MOST_INTERVALS],
    hand: Hand,
    deadlines: &[u32; Edition::MOST_JOBS],
    m: usize,
) -> bool
    requires { (m < length hand.times.now) × HiDeadlines hand.plan.now deadlines.now × Summed hand.plan.now hand.table.now m sums.old }
    ensures { (result ≡ is_hi_deadline hand.entry.plan.now (boundary hand.entry.plan.now m)) × Summed hand.entry.plan.now hand.entry.table.now (suc m) sums.new }
{
    let time = hand.times[m];
    if is_absent_time(deadlines, time) {
        return false;
    }
    for (i, deadline) in deadlines.iter().enumerate() {
        if *deadline == time {
            add_row(sums, hand.row(i));
        }
    }
    true
}
