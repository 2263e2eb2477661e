// Units placed into the room of the intervals, job by job.
ghost use Rattle.std.specs.Prelude.{◌≡◌, suc, ◌*◌, ◌-◌, ◌≤◌, ◌<◌, length, get_or};
ghost use Rattle.base.specs.Fill.{filled};
ghost use Rattle.plan.specs.Edition.{most_jobs, most_intervals, places};
ghost use Rattle.desk.specs.Timetable.{placing};
ghost use Rattle.desk.specs.Inner.Classes.{from_back};
ghost use Rattle.desk.specs.Inner.Overs.{PlacesDue, PlacesClass};
ghost use Rattle.desk.specs.Inner.Tasks.{rooms_in};

use crate::class::Class;
use crate::task::Task;
use plan::columns::Columns;
use plan::edition::Edition;
use plan::kinds::Slots;
use plan::rules::counted_within;

// The room of each interval, the normal rate's capacity; then zeros.
pub(crate) fn rooms_of(task: &Task) -> [u64; Edition::MOST_INTERVALS]
    ensures { result ≡ rooms_in task.now }
{
    let times = task.times();
    let mut rooms = [0; Edition::MOST_INTERVALS];
    for j in 0..times.len() - 1 {
        let room = task
            .columns
            .n
            .over(Slots(times[j]).elapsed(Slots(times[j + 1])));
        rooms[j] = room.0;
    }
    rooms
}

// Places units of job i into the intervals before boundary m.
fn place_units(
    class: Class,
    m: usize,
    i: usize,
    units: u32,
    rooms: &mut [u64; Edition::MOST_INTERVALS],
    table: &mut [u32],
)
    requires { (m ≤ most_intervals) × (i < most_jobs) × (places ≤ length table.old) }
    ensures { record { rooms = rooms.new; table = table.new } ≡ (placing (from_back class) m i units (record { rooms = rooms.old; table = table.old })).draft }
{
    let mut rest = units;
    for k in 0..m {
        let j = class.turn(m, k);
        let room = rooms[j];
        let here = room.min(u64::from(rest)) as u32;
        rooms[j] = room - u64::from(here);
        table[Edition::MOST_INTERVALS * i + j] = here;
        rest = rest - here;
    }
}

// The turns at boundary m, which is at `time`: places the units of the jobs of a class that are due there.
fn place_due(
    class: Class,
    m: usize,
    time: u32,
    columns: &Columns,
    rooms: &mut [u64; Edition::MOST_INTERVALS],
    table: &mut [u32],
)
    requires { (m ≤ most_intervals) × (places ≤ length table.old) }
    ensures { PlacesDue (from_back class) m time columns.now (record { rooms = rooms.old; table = table.old }) (record { rooms = rooms.new; table = table.new }) }
{
    let jobs = counted_within(columns.count);
    for q in 0..jobs {
        let i = class.turn(jobs, q);
        let due = class.has(columns.grades[i]) & (columns.deadlines[i] == time);
        if due {
            place_units(class, m, i, columns.sizes[i], rooms, table);
        }
    }
}

// Places the units of all jobs of a class.
pub(crate) fn place_class(
    class: Class,
    task: &Task,
    rooms: &mut [u64; Edition::MOST_INTERVALS],
    table: &mut [u32],
)
    requires { places ≤ length table.old }
    ensures { PlacesClass (from_back class) task.now (record { rooms = rooms.old; table = table.old }) (record { rooms = rooms.new; table = table.new }) }
{
    let times = task.times();
    let spans = times.len() - 1;
    for k in 0..spans {
        let m = class.turn(spans, k) + 1;
        place_due(class, m, times[m], &task.columns, rooms, table);
    }
}
