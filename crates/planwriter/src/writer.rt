// The writer of plan files.
ghost use Rattle.std.specs.Prelude.{◌≡◌, true, [], ◌∷◌, ℕ, ◌+◌, ◌*◌, ◌≤◌, ◌<◌, ◌^◌, length};
ghost use Rattle.std.proofs.lemmas.List.Edits.{sets};
ghost use Rattle.plan.specs.Edition.{most_jobs, most_intervals, places};
ghost use Rattle.planfields.specs.Layout.{job_length, row_length};
ghost use Rattle.plan.specs.Rules.{size};
ghost use Rattle.plan.specs.Boundaries.{intervals};
ghost use Rattle.plan.specs.Table.{no_stray};
ghost use Rattle.planwriter.specs.Writing.{jobs_bytes, rows_bytes, row_count, body, written};
ghost use Rattle.planwriter.specs.Answers.{Writes};
ghost use Rattle.planwriter.specs.Inner.Writable.{Writable};

use crate::put::{put, put_job, put_place};
use plan::boundaries::intervals_of;
use plan::edition::Edition;
use plan::kinds::Plan;
use plan::refusal::Reason;
use plan::rules::names_of;
use plan::table::sound_within;
use plan::versions::version_for;
use planfields::layout::Layout;

// The number of bytes of both rates and the job count.
const BODY_HEAD_BYTES: usize = Layout::HEADER_BYTES - Layout::OPENING_BYTES;

fn put_jobs(out: &mut [u8], at: usize, p: Plan) -> usize
    requires { (at + p.count * (1 + job_length) ≤ length out.old) × (p.count ≤ most_jobs) × ((i : ℕ) → i < p.count → size p i < 256 ^ 4) }
    ensures { (result ≡ at + p.count * (1 + job_length)) × (out.new ≡ sets out.old at (jobs_bytes p p.count)) }
{
    let mut next = at;
    for job in &p.jobs[..p.count] {
        next = put_job(out, next, *job);
    }
    next
}

// Writes the rows of one job, given its name and allotments; returns the offset after them.
fn put_job_rows(out: &mut [u8], at: usize, name: u64, row: &[u32]) -> usize
    requires { (at + length (rows_bytes most_intervals (name ∷ []) 0 row.now) ≤ length out.old) × (length row.now ≤ most_intervals) }
    ensures { (result ≡ at + length (rows_bytes most_intervals (name ∷ []) 0 row.now)) × (out.new ≡ sets out.old at (rows_bytes most_intervals (name ∷ []) 0 row.now)) }
{
    let mut next = at;
    for (j, units) in row.iter().enumerate() {
        next = put_place(out, next, name, j, *units);
    }
    next
}

// Writes the rows of a table, job by job.
// No place is stray, so the places outside the jobs and intervals have no rows and are not read.
fn put_rows(out: &mut [u8], at: usize, names: &[u64], table: &[u32], jobs: usize, spans: usize)
    requires { (at + length (rows_bytes most_intervals names.now 0 table.now) ≤ length out.old) × (jobs ≤ length names.now) × (most_intervals * jobs ≤ length table.now) × (spans ≤ most_intervals) × (no_stray most_intervals jobs spans 0 table.now ≡ true) }
    ensures { out.new ≡ sets out.old at (rows_bytes most_intervals names.now 0 table.now) }
{
    let mut next = at;
    for i in 0..jobs {
        let from = Edition::MOST_INTERVALS * i;
        next = put_job_rows(out, next, names[i], &table[from..from + spans]);
    }
}

// The number of rows of a table. It is counted in 32 bits, the width of a place,
// so that more places are processed at once.
fn rows_in(table: &[u32]) -> usize
    requires { length table.now ≤ places }
    ensures { result ≡ row_count table.now }
{
    let mut rows: u32 = 0;
    for units in table {
        rows += u32::from(*units != 0);
    }
    rows as usize
}

// Writes all bytes after the length field.
fn put_body(out: &mut [u8], at: usize, p: Plan, table: &[u32], rows: usize, spans: usize)
    requires { (at + length (body p table.now) ≤ length out.old) × Writable p table.now × (rows ≡ row_count table.now) × (spans ≡ intervals p) }
    ensures { out.new ≡ sets out.old at (body p table.now) }
{
    let after_n = put(out, at, 2, u64::from(p.n.0));
    let after_d = put(out, after_n, 2, u64::from(p.d.0));
    let after_count = put(out, after_d, 1, p.count as u64);
    let after_jobs = put_jobs(out, after_count, p);
    let after_rows = put(out, after_jobs, 2, rows as u64);
    let names = names_of(p);
    put_rows(out, after_rows, &names, table, p.count, spans);
}

fn put_file(out: &mut [u8], p: Plan, table: &[u32], rows: usize, follows: usize, spans: usize)
    requires { (length (written p table.now) ≤ length out.old) × Writable p table.now × (rows ≡ row_count table.now) × (follows ≡ length (body p table.now)) × (spans ≡ intervals p) }
    ensures { out.new ≡ sets out.old 0 (written p table.now) }
{
    let version = version_for(p.count);
    let after_version = put(out, 0, 1, u64::from(version));
    let after_length = put(out, after_version, 4, follows as u64);
    put_body(out, after_length, p, table, rows, spans);
}

// The number of bytes of a body, which all follow the length field.
fn body_bytes(jobs: usize, rows: usize) -> usize
    requires { (jobs ≤ most_jobs) × (rows ≤ places) }
    ensures exact { result ≡ 5 + jobs * (1 + job_length) + 2 + rows * (1 + row_length) }
    ensures few { result < 256 ^ 4 }
{
    BODY_HEAD_BYTES
        + jobs * (1 + Layout::JOB_LENGTH)
        + Layout::ROW_COUNT_BYTES
        + rows * (1 + Layout::ROW_LENGTH)
}

// Writes the file of a plan and its table, and returns the file's length, if the table has all its
// places, both are sound and the output is long enough; otherwise nothing is written.
pub fn write(p: Plan, table: &[u32], out: &mut [u8]) -> Result<usize, Reason>
    ensures { Writes p table.now out.old result out.new }
{
    if table.len() < Edition::PLACES {
        return Err(Reason::BufferTooShort);
    }
    let spans = intervals_of(p);
    if !sound_within(p, table, spans) {
        return Err(Reason::Unsound);
    }
    let rows = rows_in(&table[..Edition::PLACES]);
    let follows = body_bytes(p.count, rows);
    let length = Layout::OPENING_BYTES + follows;
    if out.len() < length {
        return Err(Reason::BufferTooShort);
    }
    put_file(out, p, &table[..Edition::PLACES], rows, follows, spans);
    Ok(length)
}
