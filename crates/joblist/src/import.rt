// The import: from comma-separated text to a list of jobs.
ghost use Rattle.std.specs.Prelude.{◌≡◌, []};
ghost use Rattle.plan.specs.Edition.{most_jobs};
ghost use Rattle.joblist.specs.Import.{all_lines};
ghost use Rattle.joblist.specs.Answers.{Imports};
ghost use Rattle.joblist.specs.Inner.Parts.{list_view, lines_listed};

use crate::header::HEADER;
use crate::line::read_job;
use csvtext::item::read_exactly;
use fields::field::Parsed;
use plan::edition::Edition;
use plan::kinds::{JobList, no_job};
use plan::refusal::{Reason, Refusal};

// The jobs of the lines from an offset to the end of the text, and the offset after them. One line more than
// MOST_JOBS is refused before its text is looked at.
#[tactic(auto, using(crate::proofs::LineLoop::lines_start, crate::proofs::LineLoop::lines_end, crate::proofs::LineLoop::lines_too_many, crate::proofs::LineLoop::lines_refused, crate::proofs::LineLoop::lines_next))]
fn read_lines(text: &[u8], at: usize) -> Result<Parsed<JobList>, Refusal>
    ensures { list_view result ≡ lines_listed (all_lines most_jobs [] text.now at) }
{
    // The names stand side by side, as `is_absent` scans them.
    let mut names = [0u64; Edition::MOST_JOBS];
    let mut list = JobList {
        count: 0,
        jobs: [no_job(); Edition::MOST_JOBS],
    };
    let mut next = at;
    for i in 0..Edition::MOST_JOBS {
        if text.len() <= next {
            return Ok(Parsed { value: list, next });
        }
        let job = read_job(text, next, &names[..i])?;
        names[i] = job.value.name.0;
        list.jobs[i] = job.value;
        list.count = i + 1;
        next = job.next;
    }
    if next < text.len() {
        return Err(Refusal {
            reason: Reason::WrongJobCount,
            offset: next,
        });
    }
    Ok(Parsed { value: list, next })
}

// Reads a job list: the header, then a line for each job.
#[tactic(auto, using(crate::proofs::ImportLaws::import_is))]
pub fn import(text: &[u8]) -> Result<JobList, Refusal>
    ensures { Imports text.now result }
{
    let wrong = Refusal {
        reason: Reason::WrongHeader,
        offset: 0,
    };
    let at = read_exactly(text, 0, HEADER, wrong)?;
    let lines = read_lines(text, at)?;
    if lines.value.count < 1 {
        return Err(Refusal {
            reason: Reason::WrongJobCount,
            offset: lines.next,
        });
    }
    Ok(lines.value)
}
