// Jobs in the words that a host lends, of a plan or of a list: decoding and encoding.
ghost use Rattle.std.specs.Prelude.{◌≡◌, ◌+◌, ◌*◌, ◌≤◌, length};
ghost use Rattle.std.proofs.lemmas.List.Edits.{sets};
ghost use Rattle.plan.specs.Edition.{most_jobs};
ghost use Rattle.hostmemory.specs.Memory.{job_words, job_at, jobs_to, job_out, jobs_out};

use crate::sizes::Sizes;
use plan::edition::Edition;
use plan::kinds::{Job, Name, Slots, Units, no_job};

// The job whose words begin at index `at`. A word that does not fit becomes the greatest number that does.
fn job_at(words: &[u64], at: usize) -> Job
    requires { at + job_words ≤ length words.now }
    ensures { result ≡ job_at words.now at }
{
    Job {
        name: Name(words[at]),
        grade: words[at + 1].min(u64::from(u8::MAX)) as u8,
        release: Slots(words[at + 2].min(u64::from(u32::MAX)) as u32),
        size: Units(words[at + 3]),
        deadline: Slots(words[at + 4].min(u64::from(u32::MAX)) as u32),
    }
}

// The jobs whose words begin at index `from`.
pub(crate) fn jobs_in(words: &[u64], from: usize) -> [Job; Edition::MOST_JOBS]
    requires { from + most_jobs * job_words ≤ length words.now }
    ensures { result ≡ jobs_to words.now from most_jobs }
{
    let mut jobs = [no_job(); Edition::MOST_JOBS];
    for i in 0..Edition::MOST_JOBS {
        jobs[i] = job_at(words, from + Sizes::JOB * i);
    }
    jobs
}

// Writes a job's words from index `at` on.
fn put_job(words: &mut [u64], at: usize, job: Job)
    requires { at + job_words ≤ length words.old }
    ensures { words.new ≡ sets words.old at (job_out job) }
{
    words[at] = job.name.0;
    words[at + 1] = u64::from(job.grade);
    words[at + 2] = u64::from(job.release.0);
    words[at + 3] = job.size.0;
    words[at + 4] = u64::from(job.deadline.0);
}

// Writes the words of jobs from index `from` on.
pub(crate) fn put_jobs(words: &mut [u64], from: usize, jobs: &[Job; Edition::MOST_JOBS])
    requires { from + most_jobs * job_words ≤ length words.old }
    ensures { words.new ≡ sets words.old from (jobs_out jobs.now most_jobs) }
{
    for i in 0..Edition::MOST_JOBS {
        put_job(words, from + Sizes::JOB * i, jobs[i]);
    }
}
