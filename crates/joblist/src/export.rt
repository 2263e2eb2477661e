// Writing a job list as comma-separated text. The text is made in a buffer that the longest one fits
// into, and copied to the output only if all of it has room there.
ghost use Rattle.std.specs.Prelude.{◌≡◌, [], ◌∷◌, ℕ, ◌≤◌, ◌<◌, ◌^◌};
ghost use Rattle.plan.specs.Edition.{most_jobs};
ghost use Rattle.plan.specs.Rules.{job_in};
ghost use Rattle.text.specs.Text.{decimal, name_text};
ghost use Rattle.joblist.specs.Export.{needs_quotes, doubled, field_text, grade_text, line_text, lines_text};
ghost use Rattle.joblist.specs.Answers.{Exports};
ghost use Rattle.joblist.specs.Inner.Growing.{Grows};

use crate::header::HEADER;
use plan::edition::Edition;
use plan::kinds::{HI, Job, JobList, Name};
use plan::refusal::Reason;
use plan::rules::jobs_hold;
use text::append::{add, add_number};
use text::{MOST_DIGITS, name_text};

// The greatest length of a name's field: two quotes, and each byte doubled.
const LONGEST_NAME: usize = 2 + 2 * Edition::NAME_BYTES;

// The greatest length of a line: the name, the grade, three numbers, and what stands between them.
const LONGEST_LINE: usize = LONGEST_NAME + 2 + 3 * (1 + MOST_DIGITS) + 2;

// No job list is longer.
const LONGEST_TEXT: usize = HEADER.len() + Edition::MOST_JOBS * LONGEST_LINE;

// Whether a field must be in quotes.
fn needs_quotes(bytes: &[u8]) -> bool
    ensures { result ≡ needs_quotes bytes.now }
{
    bytes.iter().any(|byte| (*byte == b'"') | (*byte == b',') | (*byte == b'\r') | (*byte == b'\n'))
}

// The letter of a grade.
fn letter_of(grade: u8) -> [u8; 1]
    ensures { result ≡ grade_text grade }
{
    if grade == HI { [b'H'] } else { [b'L'] }
}

// A text that is being made: the first `length` of the bytes.
#[derive(Drop)]
struct Draft {
    bytes: [u8; LONGEST_TEXT],
    length: usize,
}

impl Draft {
    // Appends some bytes.
    #[tactic(auto, using(crate::proofs::Growing::grows))]
    fn push(&mut self, piece: &[u8])
        ensures { Grows self.old piece.now self.new }
    {
        self.length = add(&mut self.bytes, self.length, piece);
    }

    // Appends a number in decimal.
    #[tactic(auto, using(crate::proofs::Growing::grows))]
    fn push_number(&mut self, number: u32)
        ensures { Grows self.old (decimal number) self.new }
    {
        self.length = add_number(&mut self.bytes, self.length, number);
    }

    // Appends the bytes of a field in quotes: a quote is doubled.
    fn push_doubled(&mut self, bytes: &[u8])
        ensures { Grows self.old (doubled bytes.now) self.new }
    {
        for byte in bytes {
            self.push(&[*byte]);
            if *byte == b'"' {
                self.push(b"\"");
            }
        }
    }

    // Appends a name as a field.
    fn push_name(&mut self, name: Name)
        ensures { Grows self.old (field_text (name_text name.0)) self.new }
    {
        let bytes = name_text(name);
        if !needs_quotes(&bytes) {
            self.push(&bytes);
            return;
        }
        self.push(b"\"");
        self.push_doubled(&bytes);
        self.push(b"\"");
    }

    // Appends the line of a job.
    fn push_line(&mut self, job: Job)
        requires { job.size.0 < 2 ^ 32 }
        ensures { Grows self.old (line_text job) self.new }
    {
        self.push_name(job.name);
        self.push(b",");
        self.push(&letter_of(job.grade));
        self.push(b",");
        self.push_number(job.release.0);
        self.push(b",");
        self.push_number(job.size.0 as u32);
        self.push(b",");
        self.push_number(job.deadline.0);
        self.push(b"\r\n");
    }

    // Appends the lines of a list.
    fn push_lines(&mut self, list: &JobList)
        requires { (list.now.count ≤ most_jobs) × ((i : ℕ) → i < list.now.count → (job_in list.now i).size.0 < 2 ^ 32) }
        ensures { Grows self.old (lines_text list.now list.now.count) self.new }
    {
        for job in &list.jobs[..list.count] {
            self.push_line(*job);
        }
    }
}

// Writes the text of a job list if the list meets rules 5 to 9 and the output has room for it; otherwise
// nothing is written.
pub fn export(list: JobList, out: &mut [u8]) -> Result<usize, Reason>
    ensures { Exports list out.old result out.new }
{
    if !jobs_hold(list) {
        return Err(Reason::Unsound);
    }
    let mut text = Draft {
        bytes: [0; LONGEST_TEXT],
        length: 0,
    };
    text.push(HEADER);
    text.push_lines(&list);
    let length = text.length;
    if out.len() < length {
        return Err(Reason::BufferTooShort);
    }
    out[..length].copy_from_slice(&text.bytes[..length]);
    Ok(length)
}
