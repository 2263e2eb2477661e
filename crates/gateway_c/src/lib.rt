// The archive for hosts in C and Rust: the calls of `gateway`, exported, each with its clauses.
#![tactic(auto)]

ghost use Rattle.gateway.specs.Answers.{HostReads, HostWrites, HostShows, HostJudges, HostMeasures, HostDraws, HostExplains, HostStarts, HostSteps, HostShifts, HostEnds, HostTells, HostImports, HostExports, HostMeters, HostReadsLog};

// Reads a plan file into the lent plan and table, and returns in `offset` where a refused file is wrong, or 0
// if it was read or the table is too short;
// 22 with nothing changed if the plan is too short.
#[unsafe(no_mangle)]
pub extern "C" fn gateway_read(
    file: &[u8],
    plan: &mut [u64],
    table: &mut [u32],
    offset: &mut usize,
) -> u32
    ensures { HostReads file.now plan.old table.old offset.old result plan.new table.new offset.new }
{
    gateway::files::gateway_read(file, plan, table, offset)
}

// Writes the plan file of a sound plan and its table, and returns its length in `length`; a refusal
// leaves the output as it was.
#[unsafe(no_mangle)]
pub extern "C" fn gateway_write(
    plan: &[u64],
    table: &[u32],
    out: &mut [u8],
    length: &mut usize,
) -> u32
    ensures { HostWrites plan.now table.now out.old length.old result out.new length.new }
{
    gateway::files::gateway_write(plan, table, out, length)
}

// The offset in the file at which a job's name begins; 0 if no name is shown.
#[unsafe(no_mangle)]
pub extern "C" fn gateway_name(file: &[u8], position: usize) -> usize
    ensures { HostShows file.now position result }
{
    gateway::files::gateway_name(file, position)
}

// The verdict on a plan and its table: its number, and its location in `location`.
#[unsafe(no_mangle)]
pub extern "C" fn gateway_judge(plan: &[u64], table: &[u32], location: &mut [u64]) -> u32
    ensures { HostJudges plan.now table.now location.old result location.new }
{
    gateway::judging::gateway_judge(plan, table, location)
}

// The slack figure of a plan and its table: its number, the least slack, and its location.
#[unsafe(no_mangle)]
pub extern "C" fn gateway_slack(
    plan: &[u64],
    table: &[u32],
    least: &mut i64,
    location: &mut [u64],
) -> u32
    ensures { HostMeasures plan.now table.now least.old location.old result least.new location.new }
{
    gateway::judging::gateway_slack(plan, table, least, location)
}

// Draws up the timetable of a plan's rates and jobs in the lent table: its number.
#[unsafe(no_mangle)]
pub extern "C" fn gateway_draw(plan: &[u64], table: &mut [u32]) -> u32
    ensures { HostDraws plan.now table.old result table.new }
{
    gateway::drawing::gateway_draw(plan, table)
}

// Why no timetable can be drawn up: its number, and with 29 the first pair of times, what is asked by them and what the
// link carries in `pair`.
#[unsafe(no_mangle)]
pub extern "C" fn gateway_shortage(plan: &[u64], pair: &mut [u64]) -> u32
    ensures { HostExplains plan.now pair.old result pair.new }
{
    gateway::drawing::gateway_shortage(plan, pair)
}

// Judges a plan, and starts its run in the lent words if it is accepted.
#[unsafe(no_mangle)]
pub extern "C" fn gateway_start(
    plan: &[u64],
    table: &[u32],
    run: &mut [u32],
    location: &mut [u64],
) -> u32
    ensures { HostStarts plan.now table.now run.old location.old result run.new location.new }
{
    gateway::slots::gateway_start(plan, table, run, location)
}

// Carries one slot at speed v: advances the lent run, and writes the grants to the lent row. Words that
// have no room in a column break rule 8 or 9. A refused slot leaves the run, so nothing is put back then.
#[unsafe(no_mangle)]
pub extern "C" fn gateway_step(
    plan: &[u64],
    table: &[u32],
    run: &mut [u32],
    v: u16,
    grants: &mut [u32],
) -> u32
    ensures { HostSteps plan.now table.now run.old v grants.old result run.new grants.new }
{
    gateway::slots::gateway_step(plan, table, run, v, grants)
}

// Carries a slot at each of the speeds: advances the lent run, and writes a row of grants and a number for each. Words
// that have no room in a column break rule 8 or 9. A refused shift leaves the run, so nothing is put back then.
#[unsafe(no_mangle)]
pub extern "C" fn gateway_shift(
    plan: &[u64],
    table: &[u32],
    run: &mut [u32],
    speeds: &[u16],
    rows: &mut [u32],
    numbers: &mut [u8],
) -> u32
    ensures { HostShifts plan.now table.now run.old speeds.now rows.old numbers.old result run.new rows.new numbers.new }
{
    gateway::slots::gateway_shift(plan, table, run, speeds, rows, numbers)
}

// The number of the outcome of the job at a position, or of a refusal.
#[unsafe(no_mangle)]
pub extern "C" fn gateway_outcome(plan: &[u64], run: &[u32], position: usize) -> u32
    ensures { HostEnds plan.now run.now position result }
{
    gateway::slots::gateway_outcome(plan, run, position)
}

// The word that the job at a position has ended: sets its mark in the lent run. A refused word leaves the run
// as it was.
#[unsafe(no_mangle)]
pub extern "C" fn gateway_end(plan: &[u64], run: &mut [u32], position: usize) -> u32
    ensures { HostTells plan.now run.old position result run.new }
{
    gateway::slots::gateway_end(plan, run, position)
}

// Reads a job list's text into the lent list, and returns in `offset` where a refused text is wrong, or 0 if
// it was read; 22 with nothing changed if the list is too short.
#[unsafe(no_mangle)]
pub extern "C" fn gateway_import(text: &[u8], list: &mut [u64], offset: &mut usize) -> u32
    ensures { HostImports text.now list.old offset.old result list.new offset.new }
{
    gateway::lists::gateway_import(text, list, offset)
}

// Writes the text of the lent job list, and returns its length in `length`; a refusal leaves the output as it
// was.
#[unsafe(no_mangle)]
pub extern "C" fn gateway_export(list: &[u64], out: &mut [u8], length: &mut usize) -> u32
    ensures { HostExports list.now out.old length.old result out.new length.new }
{
    gateway::lists::gateway_export(list, out, length)
}

// The speed of a reading on a link with the normal rate n: its number, and the speed in `speed`, 0 if the reading is refused.
#[unsafe(no_mangle)]
pub extern "C" fn gateway_meter(mean: f64, lowest: f64, n: u16, speed: &mut u16) -> u32
    ensures { HostMeters mean lowest n result speed.new }
{
    gateway::metering::gateway_meter(mean, lowest, n, speed)
}

// Reads a meter log into the lent list of speeds: its number, in `count` how many speeds were written, and in `offset` where a
// refused log is wrong; 0 each if there is none. A refusal leaves the list as it was.
#[unsafe(no_mangle)]
pub extern "C" fn gateway_speeds(
    log: &[u8],
    n: u16,
    speeds: &mut [u16],
    count: &mut usize,
    offset: &mut usize,
) -> u32
    ensures { HostReadsLog log.now n speeds.old result speeds.new count.new offset.new }
{
    gateway::metering::gateway_speeds(log, n, speeds, count, offset)
}
