// Reading one job.
ghost use Rattle.std.specs.Prelude.{◌≡◌};
ghost use Rattle.plan.specs.Refusal.{wrong_grade};
ghost use Rattle.plan.specs.Rules.{grade_allowed};
ghost use Rattle.fields.specs.Parsers.{checked};
ghost use Rattle.fields.specs.Answers.{field_view};
ghost use Rattle.planfields.specs.Records.{job_name};
ghost use Rattle.planfields.specs.Answers.{ReadsJob};

use crate::layout::Layout;
use fields::field::{Parsed, read};
use fields::record::read_length;
use plan::kinds::{Job, Name, Slots, Units};
use plan::refusal::{Reason, Refusal};
use plan::rules::{grade_allowed, is_absent, name_allowed, size_allowed, window_allowed};

// The length byte and the name of a job, given the names of the jobs before it.
fn read_name(file: &[u8], at: usize, earlier: &[u64]) -> Result<Parsed<u64>, Refusal>
    ensures { field_view result ≡ job_name earlier.now file.now at }
{
    let from = read_length(file, at, Layout::JOB_LENGTH as u64)?;
    let name = read::<u64>(file, from)?;
    if !name_allowed(Name(name.value)) {
        return Err(Refusal {
            reason: Reason::WrongNameByte,
            offset: from,
        });
    }
    if !is_absent(earlier, name.value) {
        return Err(Refusal {
            reason: Reason::NameTaken,
            offset: from,
        });
    }
    Ok(name)
}

fn read_grade(file: &[u8], at: usize) -> Result<Parsed<u8>, Refusal>
    ensures { field_view result ≡ checked 1 grade_allowed wrong_grade file.now at }
{
    let grade = read::<u8>(file, at)?;
    if !grade_allowed(grade.value) {
        return Err(Refusal {
            reason: Reason::WrongGrade,
            offset: at,
        });
    }
    Ok(grade)
}

pub fn read_job(file: &[u8], at: usize, earlier: &[u64]) -> Result<Parsed<Job>, Refusal>
    ensures { ReadsJob file.now at earlier.now result }
{
    let name = read_name(file, at, earlier)?;
    let grade = read_grade(file, name.next)?;
    let release = read::<u32>(file, grade.next)?;
    let size = read::<u32>(file, release.next)?;
    let deadline = read::<u32>(file, size.next)?;
    let job = Job {
        name: Name(name.value),
        grade: grade.value,
        release: Slots(release.value),
        size: Units(u64::from(size.value)),
        deadline: Slots(deadline.value),
    };
    if !(window_allowed(job.release, job.deadline) & size_allowed(job.size)) {
        return Err(Refusal {
            reason: Reason::WrongJobBounds,
            offset: grade.next,
        });
    }
    Ok(Parsed {
        value: job,
        next: deadline.next,
    })
}
