// Reading the preamble: the head, the jobs and the row count. Reader and lookup share it.
ghost use Rattle.std.specs.Prelude.{◌≡◌, ◌≤◌, []};
ghost use Rattle.plan.specs.Edition.{most_jobs};
ghost use Rattle.planfile.specs.Reader.{all_jobs, preamble};
ghost use Rattle.planfields.specs.Answers.{head_of};
ghost use Rattle.planfile.specs.Inner.Parts.{JobsAnswer, preamble_view};

use fields::field::Parsed;
use fields::opening::LengthRule;
use plan::edition::Edition;
use plan::kinds::{Plan, no_job};
use plan::refusal::Refusal;
use planfields::head::{Head, read_head};
use planfields::job::read_job;
use planfields::numbers::read_row_count;

// The plan, and how many rows follow.
#[derive(Clone, Copy)]
pub struct Preamble {
    pub plan: Plan,
    pub rows: u16,
}

// The jobs of a plan with this head. Their names are also stored in `names`.
#[tactic(auto, using(crate::proofs::JobLoop::jobs_read_next))]
fn read_jobs(
    file: &[u8],
    at: usize,
    head: Head,
    names: &mut [u64; Edition::MOST_JOBS],
) -> Result<Parsed<Plan>, Refusal>
    requires { head.count ≤ most_jobs }
    ensures { JobsAnswer (head_of head) (all_jobs head.count [] file.now at) result names.new }
{
    let mut plan = Plan {
        n: head.n,
        d: head.d,
        count: head.count,
        jobs: [no_job(); Edition::MOST_JOBS],
    };
    let mut next = at;
    for i in 0..head.count {
        let job = read_job(file, next, &names[..i])?;
        names[i] = job.value.name.0;
        plan.jobs[i] = job.value;
        next = job.next;
    }
    Ok(Parsed { value: plan, next })
}

// The preamble of a file. The names of its jobs are also stored in `names`.
#[tactic(auto, unfolding(crate::specs::Reader::preamble), using(crate::proofs::PreambleLaws::head_count))]
pub(crate) fn read_preamble(
    file: &[u8],
    names: &mut [u64; Edition::MOST_JOBS],
) -> Result<Parsed<Preamble>, Refusal>
    ensures { preamble_view names.new result ≡ preamble file.now 0 }
{
    let head = read_head(file, LengthRule::Compared)?;
    let plan = read_jobs(file, head.next, head.value, names)?;
    let rows = read_row_count(file, plan.next, head.value.version)?;
    Ok(Parsed {
        value: Preamble {
            plan: plan.value,
            rows: rows.value,
        },
        next: rows.next,
    })
}
