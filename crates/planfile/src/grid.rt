// What rows refer to, and the search for a row's job.
ghost use Rattle.std.specs.Prelude.{◌≡◌, ◌≤◌, ◌==◌, length};
ghost use Rattle.std.specs.List.{position};
ghost use Rattle.plan.specs.Edition.{most_jobs, most_intervals};
ghost use Rattle.planfile.specs.Inner.Parts.{Distinct, found_at};

// The names of a plan's jobs, which are distinct, and the number of its intervals.
#[derive(Clone, Copy)]
pub struct Grid<'a> {
    pub names: &'a [u64],
    pub spans: usize,
    ghost distinct: { Distinct names.now },
    ghost few: { length names.now ≤ most_jobs },
    ghost inside: { spans ≤ most_intervals },
}

// The first place of a name among the names, if it is one of them.
fn first_place(names: &[u64], name: u64) -> Option<usize>
    ensures { result ≡ position (λ other. other == name) names.now }
{
    names.iter().position(|other| *other == name)
}

impl Grid<'_> {
    // The position of the job with a name, if there is one. Rows are in job order, so the search begins at
    // `start`, the previous row's job, which is faster; if it finds nothing, it begins again at 0.
    #[tactic(auto, using(crate::proofs::PositionLaws::found_there))]
    pub(crate) fn find(self, name: u64, start: usize) -> Option<usize>
        ensures { result ≡ found_at self.entry.names.now name }
    {
        for k in start..self.names.len() {
            if self.names[k] == name {
                return Some(k);
            }
        }
        first_place(self.names, name)
    }
}
