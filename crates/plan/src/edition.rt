// The bounds of the edition, by name.

#[derive(Clone, Copy)]
pub struct Edition();

impl Edition {
    pub const LEAST_JOBS: usize = 1;

    pub const MOST_JOBS: usize = 32;

    pub const MOST_BOUNDARIES: usize = 2 * Self::MOST_JOBS;

    pub const MOST_INTERVALS: usize = Self::MOST_BOUNDARIES - 1;

    // The newest version of plan files.
    pub const NEWEST_VERSION: u8 = 1;

    // The bound on a file's row count. The number of the table's own places is PLACES,
    // independent of this bound.
    pub const MOST_ROWS: usize = 2016;

    pub const MOST_RATE: u16 = 1000;

    pub const MOST_DEADLINE: u32 = 100_000;

    pub const MOST_SIZE: u64 = 100_000_000;

    pub const PLACES: usize = Self::MOST_JOBS * Self::MOST_INTERVALS;

    pub const NAME_BYTES: usize = 8;

    // The bound on the speeds of a shift, and on the readings of a meter log.
    pub const MOST_SPEEDS: usize = 256;
}
