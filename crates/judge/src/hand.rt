// A plan in hand that neither 22 nor 21 refuses, with its table and its boundaries.
ghost use Rattle.std.specs.Prelude.{◌≡◌, true, ℕ, ◌≤◌, ◌<◌, length, get_or};
ghost use Rattle.plan.specs.Edition.{most_jobs, most_intervals, places};
ghost use Rattle.plan.specs.Rules.{no_job, job_of, counted, rules_hold};
ghost use Rattle.plan.specs.Boundaries.{boundaries, intervals};
ghost use Rattle.judge.specs.Constraints.{units};
ghost use Rattle.judge.specs.Inner.Widths.{most_at_place};

use plan::edition::Edition;
use plan::kinds::{Job, Plan};
use plan::rules::counted_within;

// What rules 15 to 18 are tested on.
#[derive(Clone, Copy)]
pub(crate) struct Hand<'a> {
    pub plan: &'a Plan,
    pub table: &'a [u32],
    pub times: &'a [u32],
    ghost are_boundaries: { times.now ≡ boundaries plan.now },
    ghost some: { 0 < length times.now },
    ghost all_places: { places ≤ length table.now },
    ghost in_width: { (q : ℕ) → get_or table.now q 0 ≤ most_at_place },
    ghost rules: { rules_hold plan.now ≡ true },
}

impl<'a> Hand<'a> {
    // The number of intervals.
    #[tactic(auto, using(crate::proofs::HandFault::few_intervals))]
    pub(crate) fn spans(self) -> usize
        ensures is { result ≡ intervals self.entry.plan.now }
        ensures few { result ≤ most_intervals }
    {
        self.times.len() - 1
    }

    // The counted jobs.
    #[tactic(auto, using(std::proofs::lemmas::Grind::common_steps))]
    pub(crate) fn jobs(self) -> &'a [Job]
        ensures count { length result.now ≡ counted self.entry.plan.now }
        ensures each { (i : ℕ) → i < counted self.entry.plan.now → get_or result.now i no_job ≡ job_of self.entry.plan.now i }
    {
        &self.plan.jobs[..counted_within(self.plan.count)]
    }

    // The allotments of job i, one for each interval.
    pub(crate) fn row(self, i: usize) -> &'a [u32]
        requires { i < most_jobs }
        ensures count { length result.now ≡ intervals self.entry.plan.now }
        ensures each { (j : ℕ) → j < intervals self.entry.plan.now → get_or result.now j 0 ≡ units self.entry.table.now i j }
    {
        let start = Edition::MOST_INTERVALS * i;
        &self.table[start..start + self.spans()]
    }
}
