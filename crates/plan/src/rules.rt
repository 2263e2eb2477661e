// Rules 4 to 9 on single values and over a plan in hand, and rules 5 to 9 over a list of jobs.
ghost use Rattle.std.specs.Prelude.{◌≡◌, ◌<◌, ℕ, not, min, length, get_or, take};
ghost use Rattle.std.specs.List.{list_any};
ghost use Rattle.plan.specs.Edition.{most_jobs};
ghost use Rattle.plan.specs.Rules.{rates_allowed, count_allowed, name_allowed, is_absent, grade_allowed, window_allowed, size_allowed};
ghost use Rattle.plan.specs.Rules.{jobs_of, job_of, no_job, counted, names, names_hold, names_differ, grades_hold, bounds_hold, jobs_hold, rules_hold};

use crate::edition::Edition;
use crate::kinds::{HI, Job, JobList, LO, Name, Plan, Rate, Slots, Units};

// Rule 4.
pub fn rates_allowed(n: Rate, d: Rate) -> bool
    ensures { result ≡ rates_allowed n.0 d.0 }
{
    (1 <= d.0) & (d < n) & (n.0 <= Edition::MOST_RATE)
}

// Rule 5.
pub fn count_allowed(count: usize) -> bool
    ensures { result ≡ count_allowed count }
{
    (1 <= count) & (count <= Edition::MOST_JOBS)
}

// Rule 6.
pub fn name_allowed(name: Name) -> bool
    ensures { result ≡ name_allowed name.0 }
{
    name.0
        .to_le_bytes()
        .iter()
        .all(|byte| (0x21 <= *byte) & (*byte <= 0x7E))
}

// Whether none of the numbers is x. It scans all of them, which is faster than stopping early.
pub(crate) fn is_none_of<T: Copy + PartialEq>(numbers: &[T], x: T) -> bool
    ensures { result ≡ not (list_any (λ y. T.eq y x) numbers.now) }
{
    let mut absent = true;
    for number in numbers {
        absent = absent & (*number != x);
    }
    absent
}

// Whether none of the numbers is x.
pub fn is_absent(numbers: &[u64], x: u64) -> bool
    ensures { result ≡ is_absent numbers.now x }
{
    is_none_of(numbers, x)
}

// Rule 8.
pub fn grade_allowed(grade: u8) -> bool
    ensures { result ≡ grade_allowed grade }
{
    (grade == LO) | (grade == HI)
}

// Rule 9, for a window and for a size.
pub fn window_allowed(release: Slots, deadline: Slots) -> bool
    ensures { result ≡ window_allowed release.0 deadline.0 }
{
    (release < deadline) & (deadline.0 <= Edition::MOST_DEADLINE)
}

pub fn size_allowed(size: Units) -> bool
    ensures { result ≡ size_allowed size.0 }
{
    (1 <= size.0) & (size.0 <= Edition::MOST_SIZE)
}

// The number of jobs that count where a plan has this count: at most the number of records.
pub fn counted_within(count: usize) -> usize
    ensures { result ≡ min count most_jobs }
{
    count.min(Edition::MOST_JOBS)
}

// The number of counted jobs of a plan.
pub fn counted_of(p: Plan) -> usize
    ensures { result ≡ counted p }
{
    counted_within(p.count)
}

impl Plan {
    // The records of the counted jobs.
    #[tactic(auto, using(crate::proofs::CountedJobs::counted_job))]
    pub fn counted_jobs(&self) -> &[Job]
        ensures records { result.now ≡ take (counted self.now) self.now.jobs }
        ensures long { length result.now ≡ counted self.now }
        ensures each { (i : ℕ) → i < counted self.now → get_or result.now i no_job ≡ job_of self.now i }
    {
        &self.jobs[..counted_within(self.count)]
    }
}

// The names of the counted jobs, in order, as numbers; then zeros.
pub fn names_of(p: Plan) -> [u64; Edition::MOST_JOBS]
    ensures { result ≡ names p }
{
    let mut row = [0u64; Edition::MOST_JOBS];
    for (i, job) in p.counted_jobs().iter().enumerate() {
        row[i] = job.name.0;
    }
    row
}

// Rule 6 over a plan in hand.
pub(crate) fn names_hold(p: Plan) -> bool
    ensures { result ≡ names_hold (jobs_of p) }
{
    p.counted_jobs().iter().all(|job| name_allowed(job.name))
}

// Rule 7 over a plan in hand.
#[tactic(auto, using(base::proofs::Below::every_start, base::proofs::Below::every_next, crate::proofs::Names::absent_before))]
pub(crate) fn names_differ(p: Plan) -> bool
    ensures { result ≡ names_differ (jobs_of p) }
{
    let names = names_of(p);
    let mut differ = true;
    for i in 0..counted_of(p) {
        differ = differ & is_absent(&names[..i], names[i]);
    }
    differ
}

// Rule 8 over a plan in hand.
pub(crate) fn grades_hold(p: Plan) -> bool
    ensures { result ≡ grades_hold (jobs_of p) }
{
    p.counted_jobs().iter().all(|job| grade_allowed(job.grade))
}

// Rule 9 over a plan in hand.
pub(crate) fn bounds_hold(p: Plan) -> bool
    ensures { result ≡ bounds_hold (jobs_of p) }
{
    p.counted_jobs().iter().all(|j| window_allowed(j.release, j.deadline) & size_allowed(j.size))
}

// Rules 5 to 9 together over a plan in hand.
fn plan_jobs_hold(p: Plan) -> bool
    ensures { result ≡ jobs_hold (jobs_of p) }
{
    count_allowed(p.count) & names_hold(p) & names_differ(p) & grades_hold(p) & bounds_hold(p)
}

// Rules 5 to 9 together over a list of jobs. The walks over jobs are those of plans, so that no call
// with a plan copies its records into a list; here a list is copied into a plan, whose rates no
// rule from 5 on looks at.
pub fn jobs_hold(list: JobList) -> bool
    ensures { result ≡ jobs_hold list }
{
    let jobs = list.jobs;
    plan_jobs_hold(Plan {
        n: Rate(0),
        d: Rate(0),
        count: list.count,
        jobs,
    })
}

// Rules 4 to 9 together: what judge, writer and desk require of a plan, apart from its table.
#[tactic(auto, unfolding(crate::specs::Rules::rules_hold))]
pub fn rules_hold(p: Plan) -> bool
    ensures { result ≡ rules_hold p }
{
    rates_allowed(p.n, p.d) & plan_jobs_hold(p)
}
