// Slots, units, the rate that relates them, jobs, lists of jobs, and plans in hand.
ghost use Rattle.std.specs.Prelude.{◌≡◌, ◌*◌, ◌-◌};
ghost use Rattle.plan.specs.Rules.{no_job, no_plan};

use crate::edition::Edition;

// A number of slots: a time or a length of time.
#[derive(Clone, Copy, Debug, PartialEq, Eq, PartialOrd, Ord)]
pub struct Slots(pub u32);

// A number of units of work. 64 bits hold every sum that is taken over a table.
#[derive(Clone, Copy, PartialEq, Eq, PartialOrd, Ord)]
pub struct Units(pub u64);

// Units per slot.
#[derive(Clone, Copy, PartialEq, Eq, PartialOrd, Ord)]
pub struct Rate(pub u16);

// A name's eight bytes as one number, the first byte highest.
// Two names are equal exactly when the numbers are.
#[derive(Clone, Copy, PartialEq, Eq)]
pub struct Name(pub u64);

pub const LO: u8 = 0;

pub const HI: u8 = 1;

#[derive(Clone, Copy)]
pub struct Job {
    pub name: Name,
    // A plan in hand can hold any byte here; rule 8 allows LO and HI alone.
    pub grade: u8,
    pub release: Slots,
    pub size: Units,
    pub deadline: Slots,
}

// Jobs alone, without rates. The count can be any number, as in a plan.
#[derive(Clone, Copy)]
pub struct JobList {
    pub count: usize,
    pub jobs: [Job; Edition::MOST_JOBS],
}

// A plan in hand, without the table that is lent with it. The count can be any number: a loop that
// can run before rule 5 is tested goes over the counted jobs (`counted_of`) or over all records.
#[derive(Clone, Copy)]
pub struct Plan {
    pub n: Rate,
    pub d: Rate,
    pub count: usize,
    pub jobs: [Job; Edition::MOST_JOBS],
}

// The record of zeros. It is no `Default`, since rule 9 allows no job without a window.
pub fn no_job() -> Job
    ensures { result ≡ no_job }
{
    Job {
        name: Name(0),
        grade: LO,
        release: Slots(0),
        size: Units(0),
        deadline: Slots(0),
    }
}

// The plan of zeros.
pub fn no_plan() -> Plan
    ensures { result ≡ no_plan }
{
    Plan {
        n: Rate(0),
        d: Rate(0),
        count: 0,
        jobs: [no_job(); Edition::MOST_JOBS],
    }
}

// A stored 32-bit number as units. It is no `From`: wrong programs name the call that they break.
pub fn as_units(stored: u32) -> Units
    ensures { result ≡ record { 0 = stored } }
{
    Units(u64::from(stored))
}

impl Slots {
    // The slots from this time to another; 0 if the other is earlier.
    pub fn elapsed(self, to: Slots) -> Slots
        ensures { result ≡ record { 0 = to.0 - self.0 } }
    {
        Slots(to.0.saturating_sub(self.0))
    }
}

impl Rate {
    // The units carried at this rate in a length of time.
    // No other expression multiplies a rate by slots.
    pub fn over(self, time: Slots) -> Units
        ensures { result ≡ record { 0 = self.0 * time.0 } }
    {
        Units(u64::from(self.0) * u64::from(time.0))
    }
}
