// The planning desk: draws up the timetable of jobs with one common release, or says why there is none.
#![tactic(auto, unfolding(base::specs::Below::every, base::specs::Sum::sum, base::specs::Fill::filled, plan::specs::Report::first, judge::specs::Slack::through, crate::specs::Timetable::placing, crate::specs::Timetable::turns_at, crate::specs::Timetable::class_placed, crate::specs::Desk::shortage_of, crate::specs::Desk::draw_fault, crate::specs::Desk::table_left))]

pub mod answers;
mod class;
mod pairs;
mod placing;
mod task;

ghost use Rattle.std.specs.Prelude.{◌≡◌, ◌≤◌, eqb, length, get_or};
ghost use Rattle.base.specs.Below.{every};
ghost use Rattle.plan.specs.Edition.{most_jobs, places};
ghost use Rattle.desk.specs.Answers.{TellsShortage, DrawsUp};
ghost use Rattle.desk.specs.Inner.Overs.{ShortageOver, DrawsOver};

use crate::answers::Shortage;
use crate::class::Class;
use crate::pairs::{ends_of, short_pair};
use crate::placing::{place_class, rooms_of};
use crate::task::Task;
use base::clear;
use plan::edition::Edition;
use plan::kinds::Plan;
use plan::refusal::Reason;
use plan::rules::counted_within;

// Whether all jobs have one release.
fn same_release(jobs: usize, begin: u32, releases: &[u32; Edition::MOST_JOBS]) -> bool
    requires { jobs ≤ most_jobs }
    ensures { result ≡ every (λ i. eqb (get_or releases.now i 0) begin) jobs }
{
    releases[..jobs].iter().all(|release| *release == begin)
}

// Why the jobs have no timetable. The first time is the first release.
fn shortage_over(task: &Task) -> Result<(), Shortage>
    ensures { ShortageOver task.now result }
{
    let begin = task.times()[0];
    let jobs = counted_within(task.columns.count);
    if !same_release(jobs, begin, &task.columns.releases) {
        return Err(Shortage::ReleasesDiffer);
    }
    let highs = ends_of(Class::Hi, task);
    let lows = ends_of(Class::Lo, task);
    short_pair(task, &highs, &lows)
}

// Draws up the timetable of the jobs, or says what stands against it.
fn draw_over(task: &Task, table: &mut [u32]) -> Result<(), Reason>
    requires { places ≤ length table.old }
    ensures { DrawsOver task.now table.old result table.new }
{
    clear(&mut table[..Edition::PLACES]);
    if let Err(short) = shortage_over(task) {
        return Err(short.reason());
    }
    let mut rooms = rooms_of(task);
    place_class(Class::Lo, task, &mut rooms, table);
    place_class(Class::Hi, task, &mut rooms, table);
    Ok(())
}

// Why no timetable can be drawn up for a plan's rates and jobs, if none can.
pub fn shortage(p: Plan) -> Result<(), Shortage>
    ensures { TellsShortage p result }
{
    let Ok(task) = Task::of(p) else {
        return Err(Shortage::Unsound);
    };
    shortage_over(&task)
}

// Draws up the timetable of a plan's rates and jobs in the lent table.
pub fn draw_up(p: Plan, table: &mut [u32]) -> Result<(), Reason>
    ensures { DrawsUp p table.old result table.new }
{
    if table.len() < Edition::PLACES {
        return Err(Reason::BufferTooShort);
    }
    let task = Task::of(p)?;
    draw_over(&task, table)
}
