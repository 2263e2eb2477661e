// The jobs of a plan as columns, each a row of one kind of number, for calls that hold no plan.
ghost use Rattle.plan.specs.Columns.{PutsColumns};

use crate::edition::Edition;
use crate::kinds::{Plan, Rate};
use crate::refusal::Reason;
use crate::rules::counted_of;

// The number of values that 32 bits hold.
pub const COLUMN_VALUES: u64 = 4_294_967_296;

// The rates and the count of a plan, and a row for each kind of number of its jobs. The count can be any
// number, as in a plan.
#[derive(Clone, Copy)]
pub struct Columns {
    pub n: Rate,
    pub d: Rate,
    pub count: usize,
    pub grades: [u32; Edition::MOST_JOBS],
    pub releases: [u32; Edition::MOST_JOBS],
    pub sizes: [u32; Edition::MOST_JOBS],
    pub deadlines: [u32; Edition::MOST_JOBS],
}

impl Columns {
    // No jobs, at rates of zero.
    pub const EMPTY: Columns = Columns {
        n: Rate(0),
        d: Rate(0),
        count: 0,
        grades: [0; Edition::MOST_JOBS],
        releases: [0; Edition::MOST_JOBS],
        sizes: [0; Edition::MOST_JOBS],
        deadlines: [0; Edition::MOST_JOBS],
    };

    // Puts in a plan's rates, its count and the numbers of its counted jobs. If a size has no room in 32
    // bits, the plan is unsound, and the column of sizes holds only its lowest bits.
    // The columns are filled where they stand: an `Option` of them, returned, took 384 bytes more of
    // a step's stack.
    pub fn put(&mut self, p: Plan) -> Result<(), Reason>
        ensures { PutsColumns p self.old result self.new }
    {
        let jobs = counted_of(p);
        self.n = p.n;
        self.d = p.d;
        self.count = p.count;
        let mut bits: u64 = 0;
        for (i, job) in p.jobs[..jobs].iter().enumerate() {
            bits = bits | job.size.0;
            self.grades[i] = u32::from(job.grade);
            self.releases[i] = job.release.0;
            self.sizes[i] = (job.size.0 % COLUMN_VALUES) as u32;
            self.deadlines[i] = job.deadline.0;
        }
        if bits < COLUMN_VALUES {
            Ok(())
        } else {
            Err(Reason::Unsound)
        }
    }
}
