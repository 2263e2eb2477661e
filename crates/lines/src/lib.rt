// Every line that the program prints, written to a lent buffer. A call answers the line's length; a
// buffer that is too short is refused and left as it was, and bytes past the line are unchanged. No
// line is longer than LONGEST_LINE, whatever its numbers are.
#![tactic(auto)]

mod pieces;

ghost use Rattle.std.specs.Prelude.{◌≡◌, ◌≤◌, length};
ghost use Rattle.dispatch.specs.Answers.{outcome_by, outcome_view};
ghost use Rattle.text.specs.Text.{most_digits};
ghost use Rattle.lines.specs.Answers.{Prints, PrintsBy, PrintsOutcome};
ghost use Rattle.lines.specs.Lines.{slot_header, outcome_header, stray_line, refused_line, slot_line, refused_slot_line, outcome_line, ending_word, longest_line};

use crate::pieces::{mode_of, push_grants, push_times};
use dispatch::answers::{Numbered, Outcome};
use plan::edition::Edition;
use plan::kinds::{Name, Plan, Slots};
use plan::refusal::Reason;
use text::MOST_DIGITS;
use text::line::Line;

// The greatest length of a line: two numbers with a space each, the mode,
// a grant for every job, and the line feed.
pub const LONGEST_LINE: usize = 2 * (MOST_DIGITS + 1)
    + 1
    + Edition::MOST_JOBS * (1 + Edition::NAME_BYTES + 1 + MOST_DIGITS)
    + 1;

// Copies a line into a buffer if all of it fits.
#[tactic(auto, unfolding(crate::specs::Answers::printed))]
fn print<E: Numbered>(line: &[u8], out: &mut [u8]) -> Result<usize, E>
    ensures { PrintsBy E.number line.now out.old result out.new }
{
    if out.len() < line.len() {
        return Err(E::of(Reason::BufferTooShort));
    }
    out[..line.len()].copy_from_slice(line);
    Ok(line.len())
}

// The header of the slots.
pub fn slot_header(out: &mut [u8]) -> Result<usize, Reason>
    ensures { Prints slot_header out.old result out.new }
{
    print(b"slot speed mode grants\n", out)
}

// The header of the outcomes.
pub fn outcome_header(out: &mut [u8]) -> Result<usize, Reason>
    ensures { Prints outcome_header out.old result out.new }
{
    print(b"job outcome carried\n", out)
}

// The line for an odd last byte.
pub fn stray_line(out: &mut [u8]) -> Result<usize, Reason>
    ensures { Prints stray_line out.old result out.new }
{
    print(b"stray byte\n", out)
}

// The line of a refused plan.
pub fn refused_line(number: u8, out: &mut [u8]) -> Result<usize, Reason>
    ensures prints { Prints (refused_line number) out.old result out.new }
    ensures fits { length (refused_line number) ≤ longest_line }
{
    let mut line = Line::<LONGEST_LINE>::new();
    line.push(b"refused ");
    line.push_number(u32::from(number));
    line.push(b"\n");
    print(line.as_slice(), out)
}

// The line of a slot: the clock before it, the speed, the slow mark after it, and the grants.
pub fn slot_line(
    clock: Slots,
    speed: u16,
    slow: bool,
    p: Plan,
    grants: &[u32],
    out: &mut [u8],
) -> Result<usize, Reason>
    ensures prints { Prints (slot_line clock.0 speed slow p grants.now) out.old result out.new }
    ensures fits { length (slot_line clock.0 speed slow p grants.now) ≤ longest_line }
{
    let mut line = Line::<LONGEST_LINE>::new();
    push_times(&mut line, clock, speed);
    line.push(mode_of(slow));
    push_grants(&mut line, p, grants);
    line.push(b"\n");
    print(line.as_slice(), out)
}

// The line of a refused slot.
pub fn refused_slot_line(
    clock: Slots,
    speed: u16,
    number: u8,
    out: &mut [u8],
) -> Result<usize, Reason>
    ensures prints { Prints (refused_slot_line clock.0 speed number) out.old result out.new }
    ensures fits { length (refused_slot_line clock.0 speed number) ≤ longest_line }
{
    let mut line = Line::<LONGEST_LINE>::new();
    push_times(&mut line, clock, speed);
    line.push(b"R ");
    line.push_number(u32::from(number));
    line.push(b"\n");
    print(line.as_slice(), out)
}

// The word of an outcome.
fn word_of(outcome: Outcome) -> &'static [u8]
    ensures { result.now ≡ ending_word (outcome_view (Ok outcome)) }
{
    match outcome {
        Outcome::Met => b"met",
        Outcome::Ended => b"ended",
        Outcome::Discarded => b"discarded",
        Outcome::Missed => b"missed",
        Outcome::Open => b"open",
    }
}

// The line of a job. A refused outcome has no line: what tells its refusal is the answer.
pub fn outcome_line<E: Numbered>(
    name: Name,
    outcome: Result<Outcome, E>,
    carried: u32,
    out: &mut [u8],
) -> Result<usize, E>
    ensures prints { PrintsOutcome E.number name outcome carried out.old result out.new }
    ensures fits { length (outcome_line name.0 (ending_word (outcome_by E.number outcome)) carried) ≤ longest_line }
{
    let word = word_of(outcome?);
    let mut line = Line::<LONGEST_LINE>::new();
    line.push_name(name);
    line.push(b" ");
    line.push(word);
    line.push(b" ");
    line.push_number(carried);
    line.push(b"\n");
    print(line.as_slice(), out)
}
