// The turns after the first: a slot, the header of the outcomes, and an outcome for each job.
ghost use Rattle.std.specs.Prelude.{◌≡◌, ◌<◌, ◌≤◌, length};
ghost use Rattle.lines.specs.Answers.{Prints};
ghost use Rattle.lines.specs.Lines.{stray_line, longest_line};
ghost use Rattle.program.specs.Output.{slot_of, slot_text, job_text};
ghost use Rattle.program.specs.Turns.{progress, closes, slot_turn, after_job, job_turn, turned, reads, over, Takes};
ghost use Rattle.program.specs.declared.Phase.TheVariants.{Slots, Closing};

use crate::{Phase, Progress, Turn};
use dispatch::Run;
use dispatch::outcome::outcome;
use dispatch::step::step;
use lines::{outcome_header, outcome_line, refused_slot_line, slot_line, stray_line};
use plan::edition::Edition;
use plan::kinds::{Name, Plan};
use plan::refusal::Reason;
use plan::rules::counted_of;

// The turn of a slot at speed v.
fn serve(p: Plan, table: &[u32], run: Run, v: u16, out: &mut [u8]) -> Turn
    ensures takes { (result.progress ≡ progress Slots p (slot_of p table.now run v).run) × (Prints (slot_text p run v (slot_of p table.now run v).answer (slot_of p table.now run v)) out.old result.printed out.new) }
    ensures fits { length (slot_text p run v (slot_of p table.now run v).answer (slot_of p table.now run v)) ≤ longest_line }
{
    let mut grants = [0u32; Edition::MOST_JOBS];
    let (next, printed) = match step(p, table, run, v, &mut grants) {
        Ok(next) => (next, slot_line(run.clock, v, next.slow, p, &grants, out)),
        Err(reason) => (run, refused_slot_line(run.clock, v, reason.into(), out)),
    };
    let on = Progress {
        phase: Phase::Slots,
        plan: p,
        run: next,
    };
    Turn {
        progress: on,
        printed,
    }
}

// The turn after the last speed.
fn close(p: Plan, run: Run, out: &mut [u8]) -> Turn
    ensures { Takes (closes p run) out.old result out.new }
{
    let next = Progress {
        phase: Phase::Job(0),
        plan: p,
        run,
    };
    Turn {
        progress: next,
        printed: outcome_header(out),
    }
}

// The turn of an odd last byte.
fn stray(p: Plan, run: Run, out: &mut [u8]) -> Turn
    ensures { (result.progress ≡ progress Closing p run) × (Prints stray_line out.old result.printed out.new) }
{
    let next = Progress {
        phase: Phase::Closing,
        plan: p,
        run,
    };
    Turn {
        progress: next,
        printed: stray_line(out),
    }
}

// A turn in the slots phase, by the number of bytes read: a
// slot, an odd byte, or the end of the speeds.
#[tactic(auto, unfolding(crate::specs::Turns::slot_turn))]
fn take_slot(p: Plan, table: &[u32], run: Run, bytes: &[u8], out: &mut [u8]) -> Turn
    ensures takes { Takes (slot_turn p table.now run bytes.now) out.old result out.new }
    ensures fits { length (slot_turn p table.now run bytes.now).line ≤ longest_line }
{
    match bytes {
        [] => close(p, run, out),
        [_] => stray(p, run, out),
        [high, low, ..] => {
            let v = u16::from_be_bytes([*high, *low]);
            serve(p, table, run, v, out)
        }
    }
}

// The phase after the outcome of a job.
fn next_job(p: Plan, i: usize) -> Phase
    ensures { result ≡ after_job p i }
{
    let jobs = counted_of(p);
    if i < jobs && i + 1 < jobs {
        Phase::Job(i + 1)
    } else {
        Phase::Over
    }
}

// The line of a job's outcome; a refused outcome has none.
#[tactic(auto, unfolding(lines::specs::Answers::printed))]
fn job_line(p: Plan, run: Run, i: usize, out: &mut [u8]) -> Result<usize, Reason>
    ensures prints { Prints (job_text p run i) out.old result out.new }
    ensures fits { length (job_text p run i) ≤ longest_line }
{
    let ended = outcome(p, run, i);
    if ended.is_err() {
        return Ok(0);
    }
    let name = p.jobs.get(i).map_or(Name(0), |job| job.name);
    let carried = run.carried.get(i).copied().unwrap_or(0);
    outcome_line(name, ended, carried, out)
}

// The turn of a job's outcome; the next job's follows if there is one.
#[tactic(auto, unfolding(crate::specs::Turns::job_turn))]
fn tell_job(p: Plan, run: Run, i: usize, out: &mut [u8]) -> Turn
    ensures takes { Takes (job_turn p run i) out.old result out.new }
    ensures fits { length (job_turn p run i).line ≤ longest_line }
{
    let next = Progress {
        phase: next_job(p, i),
        plan: p,
        run,
    };
    Turn {
        progress: next,
        printed: job_line(p, run, i, out),
    }
}

// One turn, with the bytes read for it.
#[tactic(auto, unfolding(lines::specs::Answers::printed))]
pub fn advance(n: Progress, table: &[u32], bytes: &[u8], out: &mut [u8]) -> Turn
    ensures takes { Takes (turned n table.now bytes.now) out.old result out.new }
    ensures fits { length (turned n table.now bytes.now).line ≤ longest_line }
{
    match n.phase {
        Phase::Slots => take_slot(n.plan, table, n.run, bytes, out),
        Phase::Closing => close(n.plan, n.run, out),
        Phase::Job(i) => tell_job(n.plan, n.run, i, out),
        Phase::Over => Turn {
            progress: n,
            printed: Ok(0),
        },
    }
}

// Whether the next turn reads a speed.
pub fn is_reading(n: Progress) -> bool
    ensures { result ≡ reads n.phase }
{
    matches!(n.phase, Phase::Slots)
}

// Whether nothing more is printed.
pub fn is_over(n: Progress) -> bool
    ensures { result ≡ over n.phase }
{
    matches!(n.phase, Phase::Over)
}
