// The calls on a lent run record: a host keeps one record and lends it to each call, which updates it.
#![tactic(auto)]

ghost use Rattle.lentrun.specs.Answers.{StepsIn, ShiftsIn, StartsIn, TellsIn};

use dispatch::Run;
use dispatch::early::end_early;
use dispatch::shift::shift;
use dispatch::start::start;
use dispatch::step::step;
use judge::answers::Fault;
use plan::kinds::Plan;
use plan::refusal::Reason;

// Carries one slot at speed v on a lent run record. A refusal changes neither record nor row.
pub fn step_in(
    run: &mut Run,
    p: Plan,
    table: &[u32],
    v: u16,
    grants: &mut [u32],
) -> Result<(), Reason>
    ensures { StepsIn run.old p table.now v grants.old result run.new grants.new }
{
    *run = step(p, table, *run, v, grants)?;
    Ok(())
}

// Carries a slot at each of the speeds on a lent run record. A refusal changes neither record nor rows nor numbers.
pub fn shift_in(
    run: &mut Run,
    p: Plan,
    table: &[u32],
    speeds: &[u16],
    rows: &mut [u32],
    numbers: &mut [u8],
) -> Result<(), Reason>
    ensures { ShiftsIn run.old p table.now speeds.now rows.old numbers.old result run.new rows.new numbers.new }
{
    *run = shift(p, table, *run, speeds, rows, numbers)?;
    Ok(())
}

// Judges a plan and starts its run in a lent record if it is accepted; otherwise the record stays.
pub fn start_in(run: &mut Run, p: Plan, table: &[u32]) -> Result<(), Fault>
    ensures { StartsIn run.old p table.now result run.new }
{
    *run = start(p, table)?;
    Ok(())
}

// Sets the ended mark of the job at a position in a lent run record. A refusal leaves the record as it was.
pub fn end_early_in(run: &mut Run, p: Plan, position: usize) -> Result<(), Reason>
    ensures { TellsIn run.old p position result run.new }
{
    *run = end_early(p, *run, position)?;
    Ok(())
}
