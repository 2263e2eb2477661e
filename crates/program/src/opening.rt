// The first turn: a plan is read and judged, and its run starts.
ghost use Rattle.std.specs.Prelude.{◌≡◌, ◌≤◌, length};
ghost use Rattle.plan.specs.Refusal.{number_of};
ghost use Rattle.planfile.specs.Reader.{reader};
ghost use Rattle.judge.specs.Verdict.{judged};
ghost use Rattle.dispatch.specs.Step.{no_run};
ghost use Rattle.lines.specs.Answers.{Prints};
ghost use Rattle.lines.specs.Lines.{refused_line, longest_line};
ghost use Rattle.program.specs.Turns.{progress, opened_by, opened, Takes, Opens};
ghost use Rattle.program.specs.declared.Phase.TheVariants.{Over};

use crate::{Phase, Progress, Turn};
use dispatch::start::{no_run, start};
use lines::{refused_line, slot_header};
use plan::kinds::{Plan, no_plan};
use plan::refusal::Reason;
use planfile::reader::read;

// Refuses a plan; the program is then over.
fn refuse(p: Plan, reason: Reason, out: &mut [u8]) -> Turn
    ensures takes { (result.progress ≡ progress Over p no_run) × (Prints (refused_line (number_of reason)) out.old result.printed out.new) }
    ensures fits { length (refused_line (number_of reason)) ≤ longest_line }
{
    let printed = refused_line(reason.into(), out);
    let over = Progress {
        phase: Phase::Over,
        plan: p,
        run: no_run(),
    };
    Turn {
        progress: over,
        printed,
    }
}

// Judges a plan that was read, and starts its run or refuses it.
fn judge_and_start(p: Plan, table: &[u32], out: &mut [u8]) -> Turn
    ensures takes { Takes (opened_by (judged p table.now) p) out.old result out.new }
    ensures fits { length (opened_by (judged p table.now) p).line ≤ longest_line }
{
    match start(p, table) {
        Ok(run) => {
            let begins = Progress {
                phase: Phase::Slots,
                plan: p,
                run,
            };
            Turn {
                progress: begins,
                printed: slot_header(out),
            }
        }
        Err(fault) => refuse(p, fault.reason(), out),
    }
}

// Reads a plan file into the lent table, judges the plan and starts its run. The line is
// the header of the slots, or the refusal.
#[tactic(auto, unfolding(crate::specs::Turns::opened))]
pub fn open(file: &[u8], table: &mut [u32], out: &mut [u8]) -> Turn
    ensures takes { Opens file.now table.old out.old result table.new out.new }
    ensures fits { length (opened (reader file.now table.old)).line ≤ longest_line }
{
    match read(file, table) {
        Ok(p) => judge_and_start(p, table, out),
        Err(fault) => refuse(no_plan(), fault.reason(), out),
    }
}
