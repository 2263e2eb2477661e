// A plan in the words that a host lends: decoding and encoding.
ghost use Rattle.std.specs.Prelude.{◌≡◌};
ghost use Rattle.hostmemory.specs.Memory.{plan_of};
ghost use Rattle.hostmemory.specs.Answers.{PutsPlan, ReadsColumns};

use crate::jobs::{jobs_in, put_jobs};
use crate::sizes::Sizes;
use plan::columns::{COLUMN_VALUES, Columns};
use plan::edition::Edition;
use plan::kinds::{Plan, Rate, no_job};
use plan::refusal::Reason;
use plan::rules::counted_within;

// The rates and the count of the plan that words encode; zeros for too few words. A word of a rate that does not fit
// means the greatest rate.
fn head_in(words: &[u64]) -> (Rate, Rate, usize)
    ensures { result ≡ ((plan_of words.now).n, (plan_of words.now).d, (plan_of words.now).count) }
{
    if words.len() < Sizes::PLAN {
        return (Rate(0), Rate(0), 0);
    }
    let n = Rate(words[0].min(u64::from(u16::MAX)) as u16);
    let d = Rate(words[1].min(u64::from(u16::MAX)) as u16);
    (n, d, words[2] as usize)
}

// The plan that words encode; too few words encode a plan of zeros.
pub fn plan_of(words: &[u64]) -> Plan
    ensures { result ≡ plan_of words.now }
{
    let (n, d, count) = head_in(words);
    if words.len() < Sizes::PLAN {
        let jobs = [no_job(); Edition::MOST_JOBS];
        return Plan { n, d, count, jobs };
    }
    let jobs = jobs_in(words, Sizes::HEAD);
    Plan { n, d, count, jobs }
}

// The number of values that 8 bits hold.
const GRADE_VALUES: u64 = 256;

// Puts the rates, the count and the columns of the plan that words encode into columns; too few words encode no job.
// If a word of a counted job has no room, a grade in 8 bits and the others in 32, the plan is unsound, and a column
// holds only the lowest 32 bits of such a word. The columns are filled where they stand, as by `Columns::put`.
#[tactic(auto, unfolding(base::specs::Below::every, base::specs::Fill::filled, crate::specs::Memory::plan_in, crate::specs::Memory::plan_of))]
pub fn columns_in(words: &[u64], columns: &mut Columns) -> Result<(), Reason>
    ensures { ReadsColumns words.now columns.old result columns.new }
{
    let (n, d, count) = head_in(words);
    columns.n = n;
    columns.d = d;
    columns.count = count;
    let mut grade_bits: u64 = 0;
    let mut bits: u64 = 0;
    for i in 0..counted_within(count) {
        let at = Sizes::HEAD + Sizes::JOB * i;
        let grade = words[at + 1];
        let release = words[at + 2];
        let size = words[at + 3];
        let deadline = words[at + 4];
        grade_bits = grade_bits | grade;
        bits = bits | release | size | deadline;
        columns.grades[i] = (grade % COLUMN_VALUES) as u32;
        columns.releases[i] = (release % COLUMN_VALUES) as u32;
        columns.sizes[i] = (size % COLUMN_VALUES) as u32;
        columns.deadlines[i] = (deadline % COLUMN_VALUES) as u32;
    }
    if (grade_bits < GRADE_VALUES) & (bits < COLUMN_VALUES) {
        Ok(())
    } else {
        Err(Reason::Unsound)
    }
}

// Writes a plan's words; too few words are left unchanged.
pub fn put_plan(words: &mut [u64], p: Plan)
    ensures { PutsPlan words.old p words.new }
{
    if words.len() < Sizes::PLAN {
        return;
    }
    words[0] = u64::from(p.n.0);
    words[1] = u64::from(p.d.0);
    words[2] = p.count as u64;
    put_jobs(words, Sizes::HEAD, &p.jobs);
}
