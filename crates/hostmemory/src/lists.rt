// A job list in the words that a host lends: decoding and encoding. The words of a plan from its job count
// on are those of the list of its jobs.
ghost use Rattle.std.specs.Prelude.{◌≡◌};
ghost use Rattle.hostmemory.specs.Memory.{list_held};
ghost use Rattle.hostmemory.specs.Answers.{PutsList};

use crate::jobs::{jobs_in, put_jobs};
use crate::sizes::Sizes;
use plan::edition::Edition;
use plan::kinds::{JobList, no_job};

// The job list that words encode; too few words encode a list of no jobs.
pub fn list_of(words: &[u64]) -> JobList
    ensures { result ≡ list_held words.now }
{
    if words.len() < Sizes::LIST {
        let jobs = [no_job(); Edition::MOST_JOBS];
        return JobList { count: 0, jobs };
    }
    let jobs = jobs_in(words, Sizes::COUNT);
    JobList {
        count: words[0] as usize,
        jobs,
    }
}

// Writes a job list's words; too few words are left unchanged.
pub fn put_list(words: &mut [u64], list: JobList)
    ensures { PutsList words.old list words.new }
{
    if words.len() < Sizes::LIST {
        return;
    }
    words[0] = list.count as u64;
    put_jobs(words, Sizes::COUNT, &list.jobs);
}
