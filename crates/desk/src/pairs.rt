// The first pair of times by which no timetable exists.
ghost use Rattle.std.specs.Prelude.{◌≡◌, not, ◌*◌, ◌≤◌, ◌<◌, length, get_or, None};
ghost use Rattle.base.specs.Sum.{sum};
ghost use Rattle.base.specs.Below.{every};
ghost use Rattle.plan.specs.Report.{first};
ghost use Rattle.desk.specs.Answers.{answer_view};
ghost use Rattle.desk.specs.Inner.Classes.{from_back};
ghost use Rattle.desk.specs.Inner.Lists.{Ends, IsWithin, AreWithin, jobs_in, due_size, is_due_at, most_in_column, pair_in, pairs_from};
ghost use Rattle.desk.specs.Inner.Tasks.{times_of};

use crate::answers::Shortage;
use crate::class::Class;
use crate::task::Task;
use plan::columns::Columns;
use plan::edition::Edition;
use plan::kinds::{Rate, Slots, Units};
use plan::rules::counted_within;

// The sizes of the jobs of a class that are due at or before a time, together.
fn sizes_due(class: Class, time: u32, columns: &Columns) -> Units
    ensures { (result.0 ≡ sum (due_size (from_back class) columns.now time) (jobs_in columns.now)) × (result.0 ≤ jobs_in columns.now * most_in_column) }
{
    let mut total = Units(0);
    for i in 0..counted_within(columns.count) {
        if class.has(columns.grades[i]) & (columns.deadlines[i] <= time) {
            total = Units(total.0 + u64::from(columns.sizes[i]));
        }
    }
    total
}

// Whether no job of a class is due at a time. It looks at all of them, which is faster than stopping early.
fn none_due(class: Class, time: u32, columns: &Columns) -> bool
    ensures { result ≡ every (λ i. not (is_due_at (from_back class) columns.now time i)) (jobs_in columns.now) }
{
    let mut none = true;
    for i in 0..counted_within(columns.count) {
        let due = class.has(columns.grades[i]) & (columns.deadlines[i] == time);
        none = none & !due;
    }
    none
}

// The ends of a class: the sizes due by then at the first time and where a job of the class is due.
pub(crate) fn ends_of(class: Class, task: &Task) -> [Option<Units>; Edition::MOST_BOUNDARIES]
    ensures { Ends (from_back class) task.now.columns (times_of task.now) result × AreWithin result }
{
    let mut ends = [None; Edition::MOST_BOUNDARIES];
    for (m, time) in task.times().iter().enumerate() {
        let wanted = (m == 0) | !none_due(class, *time, &task.columns);
        ends[m] = if wanted {
            Some(sizes_due(class, *time, &task.columns))
        } else {
            None
        };
    }
    ends
}

// The pair of two times with the ends that stand at them, if it asks more than the rates carry.
fn pair_of(
    n: Rate,
    d: Rate,
    start: Slots,
    due: Slots,
    late: Slots,
    high: Option<Units>,
    low: Option<Units>,
) -> Result<(), Shortage>
    requires { IsWithin high × IsWithin low }
    ensures { answer_view result ≡ pair_in n.0 d.0 start.0 due.0 late.0 high low }
{
    let (Some(high), Some(low)) = (high, low) else {
        return Ok(());
    };
    let asked = Units(high.0 + low.0);
    let normal = n.over(start.elapsed(late));
    let floor = d.over(late.elapsed(due));
    let carried = Units(normal.0 + floor.0);
    if asked.0 <= carried.0 {
        return Ok(());
    }
    Err(Shortage::Pair {
        due,
        late,
        asked,
        carried,
    })
}

// The first pair with a time that asks more than the rates carry.
#[tactic(auto, unfolding(plan::specs::Report::first), using(crate::proofs::CodeLaws::first_told))]
fn short_from(
    task: &Task,
    due: Slots,
    high: Option<Units>,
    lows: &[Option<Units>; Edition::MOST_BOUNDARIES],
) -> Result<(), Shortage>
    requires { IsWithin high × AreWithin lows.now }
    ensures { answer_view result ≡ first (pairs_from task.now.columns (times_of task.now) due.0 high lows.now) (length (times_of task.now)) }
{
    let times = task.times();
    for (k, late) in times.iter().enumerate() {
        pair_of(
            task.columns.n,
            task.columns.d,
            Slots(times[0]),
            due,
            Slots(*late),
            high,
            lows[k],
        )?;
    }
    Ok(())
}

// The first pair of all that asks more than the rates carry.
#[tactic(auto, unfolding(plan::specs::Report::first), using(crate::proofs::CodeLaws::first_told))]
pub(crate) fn short_pair(
    task: &Task,
    highs: &[Option<Units>; Edition::MOST_BOUNDARIES],
    lows: &[Option<Units>; Edition::MOST_BOUNDARIES],
) -> Result<(), Shortage>
    requires { AreWithin highs.now × AreWithin lows.now }
    ensures { answer_view result ≡ first (λ m. first (pairs_from task.now.columns (times_of task.now) (get_or (times_of task.now) m 0) (get_or highs.now m None) lows.now) (length (times_of task.now))) (length (times_of task.now)) }
{
    for (m, due) in task.times().iter().enumerate() {
        short_from(task, Slots(*due), highs[m], lows)?;
    }
    Ok(())
}
