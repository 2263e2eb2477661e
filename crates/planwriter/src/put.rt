// Writing one field, and the fields of a job and of a row.
ghost use Rattle.std.specs.Prelude.{◌≡◌, [], ◌∷◌, ◌+◌, ◌≤◌, ◌<◌, ◌^◌, length};
ghost use Rattle.std.proofs.lemmas.List.Edits.{sets};
ghost use Rattle.plan.specs.Edition.{most_intervals};
ghost use Rattle.planfields.specs.Layout.{job_length, row_length};
ghost use Rattle.fields.specs.Bytes.{bytes};
ghost use Rattle.planwriter.specs.Writing.{job_bytes, row_bytes, row_at};

use plan::edition::Edition;
use plan::kinds::Job;
use planfields::layout::Layout;

// Writes x as a field of w bytes, highest byte first; returns the offset after it.
pub(crate) fn put(out: &mut [u8], at: usize, w: usize, x: u64) -> usize
    requires { (at + w ≤ length out.old) × (x < 256 ^ w) }
    ensures { (result ≡ at + w) × (out.new ≡ sets out.old at (bytes w x)) }
{
    let mut rest = x;
    for k in (0..w).rev() {
        out[at + k] = (rest % 256) as u8;
        rest = rest / 256;
    }
    at + w
}

pub(crate) fn put_job(out: &mut [u8], at: usize, job: Job) -> usize
    requires { (at + (1 + job_length) ≤ length out.old) × (job.size.0 < 256 ^ 4) }
    ensures { (result ≡ at + (1 + job_length)) × (out.new ≡ sets out.old at (job_bytes job)) }
{
    let after_length = put(out, at, 1, Layout::JOB_LENGTH as u64);
    let after_name = put(out, after_length, Edition::NAME_BYTES, job.name.0);
    let after_grade = put(out, after_name, 1, u64::from(job.grade));
    let after_release = put(out, after_grade, 4, u64::from(job.release.0));
    let after_size = put(out, after_release, 4, job.size.0);
    put(out, after_size, 4, u64::from(job.deadline.0))
}

fn put_row(out: &mut [u8], at: usize, name: u64, interval: usize, units: u32) -> usize
    requires { (at + (1 + row_length) ≤ length out.old) × (interval < 256 ^ 2) }
    ensures { (result ≡ at + (1 + row_length)) × (out.new ≡ sets out.old at (row_bytes name interval units)) }
{
    let after_length = put(out, at, 1, Layout::ROW_LENGTH as u64);
    let after_name = put(out, after_length, Edition::NAME_BYTES, name);
    let after_interval = put(out, after_name, 2, interval as u64);
    put(out, after_interval, 4, u64::from(units))
}

// Writes the row of an allotment, or nothing for 0 units; returns the offset after it.
pub(crate) fn put_place(out: &mut [u8], at: usize, name: u64, interval: usize, units: u32) -> usize
    requires { (at + length (row_at most_intervals (name ∷ []) interval units) ≤ length out.old) × (interval < most_intervals) }
    ensures { (result ≡ at + length (row_at most_intervals (name ∷ []) interval units)) × (out.new ≡ sets out.old at (row_at most_intervals (name ∷ []) interval units)) }
{
    if units == 0 {
        return at;
    }
    put_row(out, at, name, interval, units)
}
