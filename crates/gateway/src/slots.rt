// The calls for hosts on a run.
ghost use Rattle.std.specs.Prelude.{◌≡◌};
ghost use Rattle.plan.specs.Report.{number_of};
ghost use Rattle.dispatch.specs.Answers.{answer_view, outcome_view};
ghost use Rattle.gateway.specs.Calls.{ending_number};
ghost use Rattle.gateway.specs.Answers.{HostStarts, HostSteps, HostShifts, HostEnds, HostTells};
ghost use Rattle.gateway.specs.Inner.{Readies};

use crate::answers::{number_of, outcome_number, verdict_location};
use dispatch::answers::Outcome;
use dispatch::early::end_over;
use dispatch::outcome::outcome_over;
use dispatch::shift::shift_over;
use dispatch::start::start;
use dispatch::step::slot_over;
use hostmemory::plans::{columns_in, plan_of};
use hostmemory::runs::{marks_hold, moment_in, put_run, put_slot, run_of};
use hostmemory::sizes::Sizes;
use judge::answers::Fault;
use plan::columns::Columns;
use plan::refusal::Reason;

// Judges a plan, and starts its run in the lent words if it is accepted.
fn start_in(
    plan: &[u64],
    table: &[u32],
    run: &mut [u32],
    location: &mut [u64],
) -> Result<(), Reason>
    ensures { HostStarts plan.now table.now run.old location.old (number_of (answer_view result)) run.new location.new }
{
    if (plan.len() < Sizes::PLAN) | (run.len() < Sizes::RUN) | (location.len() < Sizes::LOCATION) {
        return Err(Reason::BufferTooShort);
    }
    let begun = start(plan_of(plan), table);
    location[..Sizes::LOCATION].copy_from_slice(&verdict_location(&begun));
    put_run(run, begun.map_err(Fault::reason)?);
    Ok(())
}

// Judges a plan, and starts its run in the lent words if it is accepted.
pub fn gateway_start(plan: &[u64], table: &[u32], run: &mut [u32], location: &mut [u64]) -> u32
    ensures { HostStarts plan.now table.now run.old location.old result run.new location.new }
{
    number_of(&start_in(plan, table, run, location))
}

// Fills the columns of the lent plan for a call on the lent run: refused if there are too few words, if a mark is neither
// 0 nor 1, and if a word has no room in its column, since that breaks rule 8 or 9. The columns are filled where they
// stand, which takes less stack than handing them on. It is put into its callers: as a call, a slot would take longer.
#[inline(always)]
fn ready(plan: &[u64], run: &[u32], cols: &mut Columns) -> Result<(), Reason>
    ensures { Readies plan.now run.now cols.old result cols.new }
{
    if (plan.len() < Sizes::PLAN) | (run.len() < Sizes::RUN) {
        return Err(Reason::BufferTooShort);
    }
    if !marks_hold(run) {
        return Err(Reason::Unsound);
    }
    columns_in(plan, cols)
}

fn step_in(
    plan: &[u64],
    table: &[u32],
    run: &mut [u32],
    v: u16,
    grants: &mut [u32],
) -> Result<(), Reason>
    ensures { HostSteps plan.now table.now run.old v grants.old (number_of (answer_view result)) run.new grants.new }
{
    let mut cols = Columns::EMPTY;
    ready(plan, run, &mut cols)?;
    let mut at = run_of(run);
    let next = slot_over(
        &cols,
        table,
        moment_in(run),
        v,
        &at.ended,
        &mut at.carried,
        grants,
    )?;
    put_slot(run, next, &at.carried);
    Ok(())
}

// Carries one slot at speed v: advances the lent run, and writes the grants to the lent row. Words that
// have no room in a column break rule 8 or 9. A refused slot leaves the run, so nothing is put back then.
pub fn gateway_step(plan: &[u64], table: &[u32], run: &mut [u32], v: u16, grants: &mut [u32]) -> u32
    ensures { HostSteps plan.now table.now run.old v grants.old result run.new grants.new }
{
    number_of(&step_in(plan, table, run, v, grants))
}

fn shift_in(
    plan: &[u64],
    table: &[u32],
    run: &mut [u32],
    speeds: &[u16],
    rows: &mut [u32],
    numbers: &mut [u8],
) -> Result<(), Reason>
    ensures { HostShifts plan.now table.now run.old speeds.now rows.old numbers.old (number_of (answer_view result)) run.new rows.new numbers.new }
{
    let mut cols = Columns::EMPTY;
    ready(plan, run, &mut cols)?;
    let mut at = run_of(run);
    let after = shift_over(
        &cols,
        table,
        moment_in(run),
        speeds,
        &at.ended,
        &mut at.carried,
        rows,
        numbers,
    )?;
    put_slot(run, after, &at.carried);
    Ok(())
}

// Carries a slot at each of the speeds: advances the lent run, and writes a row of grants and a number for each. Words
// that have no room in a column break rule 8 or 9. A refused shift leaves the run, so nothing is put back then.
pub fn gateway_shift(
    plan: &[u64],
    table: &[u32],
    run: &mut [u32],
    speeds: &[u16],
    rows: &mut [u32],
    numbers: &mut [u8],
) -> u32
    ensures { HostShifts plan.now table.now run.old speeds.now rows.old numbers.old result run.new rows.new numbers.new }
{
    number_of(&shift_in(plan, table, run, speeds, rows, numbers))
}

fn outcome_in(plan: &[u64], run: &[u32], position: usize) -> Result<Outcome, Reason>
    ensures { HostEnds plan.now run.now position (ending_number (outcome_view result)) }
{
    let mut cols = Columns::EMPTY;
    ready(plan, run, &mut cols)?;
    outcome_over(&cols, run_of(run), position)
}

// The number of the outcome of the job at a position, or of a refusal.
pub fn gateway_outcome(plan: &[u64], run: &[u32], position: usize) -> u32
    ensures { HostEnds plan.now run.now position result }
{
    outcome_number(outcome_in(plan, run, position))
}

fn end_in(plan: &[u64], run: &mut [u32], position: usize) -> Result<(), Reason>
    ensures { HostTells plan.now run.old position (number_of (answer_view result)) run.new }
{
    let mut cols = Columns::EMPTY;
    ready(plan, run, &mut cols)?;
    put_run(run, end_over(&cols, run_of(run), position)?);
    Ok(())
}

// The word that the job at a position has ended: sets its mark in the lent run. A refused word leaves the run, so
// nothing is put back then.
pub fn gateway_end(plan: &[u64], run: &mut [u32], position: usize) -> u32
    ensures { HostTells plan.now run.old position result run.new }
{
    number_of(&end_in(plan, run, position))
}
