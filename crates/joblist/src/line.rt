// A line of a job list: its five fields, and the job of it.
ghost use Rattle.std.specs.Prelude.{◌≡◌};
ghost use Rattle.joblist.specs.Import.{line, one_job};
ghost use Rattle.joblist.specs.Inner.Parts.{line_view, job_view};

use csvtext::item::{Grade, read_grade, read_name, read_number};
use fields::field::Parsed;
use plan::kinds::{Job, Name, Slots, Units};
use plan::refusal::{Reason, Refusal};
use plan::rules::{is_absent, name_allowed, size_allowed, window_allowed};

// The fields of a line, allowed or not, with the offsets of the grade's field and of the release's.
#[derive(Clone, Copy)]
struct Line {
    name: Name,
    grade: Option<Grade>,
    grade_at: usize,
    release: Slots,
    release_at: usize,
    size: Units,
    deadline: Slots,
}

// A line by its text alone.
#[tactic(auto, unfolding(crate::specs::Import::line))]
fn read_line(text: &[u8], at: usize) -> Result<Parsed<Line>, Refusal>
    ensures { line_view result ≡ line text.now at }
{
    let name = read_name(text, at, at)?;
    let grade = read_grade(text, name.next, at)?;
    let release = read_number(text, grade.next, b",", at)?;
    let size = read_number(text, release.next, b",", at)?;
    let deadline = read_number(text, size.next, b"\r\n", at)?;
    Ok(Parsed {
        value: Line {
            name: Name(name.value),
            grade: grade.value,
            grade_at: name.next,
            release: Slots(release.value),
            release_at: grade.next,
            size: Units(u64::from(size.value)),
            deadline: Slots(deadline.value),
        },
        next: deadline.next,
    })
}

// One job: a well-formed line, then rules 6 to 9, of which 7 is told the names of the jobs before it.
#[tactic(auto, unfolding(crate::specs::Import::one_job))]
pub(crate) fn read_job(text: &[u8], at: usize, earlier: &[u64]) -> Result<Parsed<Job>, Refusal>
    ensures { job_view result ≡ one_job earlier.now text.now at }
{
    let read = read_line(text, at)?;
    let line = read.value;
    if !name_allowed(line.name) {
        return Err(Refusal {
            reason: Reason::WrongNameByte,
            offset: at,
        });
    }
    if !is_absent(earlier, line.name.0) {
        return Err(Refusal {
            reason: Reason::NameTaken,
            offset: at,
        });
    }
    let Some(grade) = line.grade else {
        return Err(Refusal {
            reason: Reason::WrongGrade,
            offset: line.grade_at,
        });
    };
    if !(window_allowed(line.release, line.deadline) & size_allowed(line.size)) {
        return Err(Refusal {
            reason: Reason::WrongJobBounds,
            offset: line.release_at,
        });
    }
    Ok(Parsed {
        value: Job {
            name: line.name,
            grade: u8::from(grade),
            release: line.release,
            size: line.size,
            deadline: line.deadline,
        },
        next: read.next,
    })
}
