// A field of a line together with what ends it, and the three kinds of it: a name, a grade, a number.
ghost use Rattle.std.specs.Prelude.{◌≡◌};
ghost use Rattle.csvtext.specs.Items.{item};
ghost use Rattle.csvtext.specs.Answers.{grade_number, grade_told, ReadsExactly, ReadsName, ReadsGrade, ReadsNumber};
ghost use Rattle.csvtext.specs.Inner.Parts.{item_view, item_seen, grade_seen};

use crate::field::{Seen, read_field};
use fields::field::Parsed;
use plan::edition::Edition;
use plan::kinds::{HI, LO};
use plan::refusal::{Reason, Refusal};

// The grades that letters name.
#[derive(Clone, Copy, Debug, PartialEq, Eq)]
pub enum Grade {
    Lo,
    Hi,
}

impl From<Grade> for u8 {
    ghost from_gives = { λ grade number. number ≡ grade_number grade };

    fn from(grade: Grade) -> u8 {
        match grade {
            Grade::Lo => LO,
            Grade::Hi => HI,
        }
    }
}

// The offset after bytes that must stand at an offset; if they do not, it is `wrong`.
#[tactic(auto, using(crate::proofs::ItemLaws::begins_rest))]
pub fn read_exactly<E: Drop>(text: &[u8], at: usize, bytes: &[u8], wrong: E) -> Result<usize, E>
    ensures { ReadsExactly text.now at bytes.now wrong result }
{
    let rest = &text[at.min(text.len())..];
    if !rest.starts_with(bytes) {
        return Err(wrong);
    }
    Ok(at + bytes.len())
}

// A field of a line that begins at `from`, and what ends it.
#[tactic(auto, using(crate::proofs::ItemLaws::item_is))]
fn read_item(text: &[u8], at: usize, ends: &[u8], from: usize) -> Result<Parsed<Seen>, Refusal>
    ensures { item_view result ≡ item_seen (item ends.now from text.now at) }
{
    let wrong = Refusal {
        reason: Reason::WrongLine,
        offset: from,
    };
    let field = read_field(text, at).ok_or(wrong)?;
    let next = read_exactly(text, field.next, ends, wrong)?;
    Ok(Parsed {
        value: field.value,
        next,
    })
}

// A name: eight bytes.
#[tactic(auto, using(crate::proofs::ItemLaws::name_is))]
pub fn read_name(text: &[u8], at: usize, from: usize) -> Result<Parsed<u64>, Refusal>
    ensures { ReadsName text.now at from result }
{
    let item = read_item(text, at, b",", from)?;
    if item.value.length != Edition::NAME_BYTES {
        return Err(Refusal {
            reason: Reason::WrongLine,
            offset: from,
        });
    }
    Ok(Parsed {
        value: item.value.name,
        next: item.next,
    })
}

// The grade that a field of one byte names, or none.
fn grade_seen(seen: Seen) -> Option<Grade>
    ensures { grade_told result ≡ grade_seen seen }
{
    if seen.length != 1 {
        return None;
    }
    if seen.name == u64::from(b'H') {
        return Some(Grade::Hi);
    }
    if seen.name == u64::from(b'L') {
        return Some(Grade::Lo);
    }
    None
}

// A grade, allowed or not.
#[tactic(auto, using(crate::proofs::ItemLaws::grade_is))]
pub fn read_grade(text: &[u8], at: usize, from: usize) -> Result<Parsed<Option<Grade>>, Refusal>
    ensures { ReadsGrade text.now at from result }
{
    let item = read_item(text, at, b",", from)?;
    Ok(Parsed {
        value: grade_seen(item.value),
        next: item.next,
    })
}

// A number: a decimal.
#[tactic(auto, using(crate::proofs::ItemLaws::number_is))]
pub fn read_number(text: &[u8], at: usize, ends: &[u8], from: usize) -> Result<Parsed<u32>, Refusal>
    ensures { ReadsNumber text.now at ends.now from result }
{
    let item = read_item(text, at, ends, from)?;
    if !item.value.decimal | (item.value.length == 0) {
        return Err(Refusal {
            reason: Reason::WrongLine,
            offset: from,
        });
    }
    Ok(Parsed {
        value: item.value.number,
        next: item.next,
    })
}
