// The sizes, in words, of what a host lends.
use plan::edition::Edition;

#[derive(Clone, Copy)]
pub struct Sizes();

impl Sizes {
    // Both rates.
    pub const RATES: usize = 2;
    // The job count.
    pub const COUNT: usize = 1;
    // Both rates and the job count.
    pub const HEAD: usize = Self::RATES + Self::COUNT;
    // Name, grade, release, size and deadline.
    pub const JOB: usize = 5;

    pub const LIST: usize = Self::COUNT + Edition::MOST_JOBS * Self::JOB;

    pub const PLAN: usize = Self::RATES + Self::LIST;
    // The clock and both marks.
    pub const MARKS: usize = 3;

    // Where the ended marks begin, after the carried units.
    pub const ENDED: usize = Self::MARKS + Edition::MOST_JOBS;

    pub const RUN: usize = Self::ENDED + Edition::MOST_JOBS;

    pub const LOCATION: usize = 2;

    // Two times, what is asked by them and what the link carries.
    pub const PAIR: usize = 4;
}
