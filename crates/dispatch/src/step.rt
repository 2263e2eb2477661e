// A slot's call: over the columns of a plan's jobs, and by value.
ghost use Rattle.dispatch.specs.Answers.{Steps, StepsOver};

use crate::claims::GoalColumn;
use crate::slot::{carry_slot, spans_of};
use crate::soundness::{Readiness, readiness_of};
use crate::{Moment, Run};
use plan::columns::Columns;
use plan::edition::Edition;
use plan::kinds::{Plan, Rate};
use plan::refusal::Reason;
use plan::rules::counted_within;

// Carries one slot at speed v for a plan whose columns are lent: writes the grants to the lent row, one entry per
// counted job, and adds them to the carried units, which are lent too; the answer is the rest of the run. The refusal
// is the first of 21, 22, 19 and 20 that applies, and changes neither.
pub fn slot_over(
    cols: &Columns,
    table: &[u32],
    at: Moment,
    v: u16,
    ended: &[bool; Edition::MOST_JOBS],
    carried: &mut [u32; Edition::MOST_JOBS],
    grants: &mut [u32],
) -> Result<Moment, Reason>
    ensures { StepsOver cols.now table.now at v ended.now carried.old grants.old result carried.new grants.new }
{
    let readiness = readiness_of(cols, at.clock, carried)?;
    let jobs = counted_within(cols.count);
    if (table.len() < Edition::PLACES) | (grants.len() < jobs) {
        return Err(Reason::BufferTooShort);
    }
    if readiness == Readiness::Over {
        return Err(Reason::ClockAtEnd);
    }
    if cols.n.0 < v {
        return Err(Reason::SpeedAboveNormal);
    }
    let goals = GoalColumn {
        at_once: false,
        whole: at.slow,
        spans: spans_of(at.slow, cols, at.clock),
        goals: &cols.sizes,
        table,
    };
    Ok(carry_slot(cols, Rate(v), at, &goals, ended, carried, grants))
}

// Carries one slot at speed v and writes the grants to the lent row, one entry per counted job. A
// refusal changes neither run nor row. A size that has no room in a column is too large for rule 9.
pub fn step(p: Plan, table: &[u32], run: Run, v: u16, grants: &mut [u32]) -> Result<Run, Reason>
    ensures { Steps p table.now run v grants.old result grants.new }
{
    let mut cols = Columns::EMPTY;
    cols.put(p)?;
    let mut carried = run.carried;
    let next = slot_over(
        &cols,
        table,
        run.moment(),
        v,
        &run.ended,
        &mut carried,
        grants,
    )?;
    Ok(next.with(carried, run.ended))
}
