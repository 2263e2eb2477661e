// What a plan file of a version may hold, and the version in which a plan is written.
// There is one version, so none of the limits depends on it yet.
ghost use Rattle.std.specs.Prelude.{◌≡◌};
ghost use Rattle.plan.specs.Versions.{count_allowed_in, rows_allowed_in, version_for};

use crate::edition::Edition;

// Rule 5 for a file of a version.
pub fn count_allowed_in(version: u8, count: u64) -> bool
    ensures { result ≡ count_allowed_in version count }
{
    (Edition::LEAST_JOBS as u64 <= count) & (count <= Edition::MOST_JOBS as u64)
}

// Rule 10 for a file of a version.
pub fn rows_allowed_in(version: u8, rows: u64) -> bool
    ensures { result ≡ rows_allowed_in version rows }
{
    rows <= Edition::MOST_ROWS as u64
}

// The version of the file in which a plan with this many jobs is written.
pub fn version_for(count: usize) -> u8
    ensures { result ≡ version_for count }
{
    Edition::NEWEST_VERSION
}
