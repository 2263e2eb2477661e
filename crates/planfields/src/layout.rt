// The layout of a plan file, by name.
use plan::edition::Edition;

#[derive(Clone, Copy)]
pub struct Layout();

impl Layout {
    // The version byte and the length field, which counts the bytes after these two.
    pub const OPENING_BYTES: usize = 1 + 4;

    // The opening, both rates and the job count.
    pub const HEADER_BYTES: usize = Self::OPENING_BYTES + 2 + 2 + 1;

    // The values of the length bytes of a job and of a row:
    // the number of bytes after the length byte.
    pub const JOB_LENGTH: usize = 21;

    pub const ROW_LENGTH: usize = 14;

    pub const ROW_COUNT_BYTES: usize = 2;

    pub const LARGEST_FILE: usize = Self::HEADER_BYTES
        + Edition::MOST_JOBS * (1 + Self::JOB_LENGTH)
        + Self::ROW_COUNT_BYTES
        + Edition::MOST_ROWS * (1 + Self::ROW_LENGTH);
}
