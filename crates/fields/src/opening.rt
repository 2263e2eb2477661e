// The opening of a file: its version byte and its length field.
ghost use Rattle.std.specs.Prelude.{◌≡◌};
ghost use Rattle.fields.specs.Parsers.{is_version, version, extent};
ghost use Rattle.fields.specs.Answers.{field_view, passed_view, is_compared, ReadsOpening};

use crate::field::{Parsed, read};
use plan::refusal::{Reason, Refusal};

// Whether a length field must be the number of bytes after it.
#[derive(Clone, Copy, Debug, PartialEq, Eq)]
pub enum LengthRule {
    Compared,
    Ignored,
}

fn is_version(newest: u8, version: u8) -> bool
    ensures { result ≡ is_version newest version }
{
    1 <= version && version <= newest
}

// The version byte. A file without one is refused like one with another version.
fn read_version(file: &[u8], newest: u8) -> Result<Parsed<u8>, Refusal>
    ensures { field_view result ≡ version newest file.now 0 }
{
    let wrong = Refusal {
        reason: Reason::WrongVersion,
        offset: 0,
    };
    let Ok(version) = read::<u8>(file, 0) else {
        return Err(wrong);
    };
    if !is_version(newest, version.value) {
        return Err(wrong);
    }
    Ok(version)
}

// The length field.
fn read_extent(file: &[u8], at: usize, lengths: LengthRule) -> Result<usize, Refusal>
    ensures { passed_view result ≡ extent (is_compared lengths) file.now at }
{
    let says = read::<u32>(file, at)?;
    let follows = file.len() - says.next;
    if lengths == LengthRule::Compared && says.value as usize != follows {
        return Err(Refusal {
            reason: Reason::WrongExtent,
            offset: at,
        });
    }
    Ok(says.next)
}

// The version, from 1 to `newest`, and the offset after the length field.
pub fn read_opening(file: &[u8], newest: u8, lengths: LengthRule) -> Result<Parsed<u8>, Refusal>
    ensures { ReadsOpening file.now newest lengths result }
{
    let version = read_version(file, newest)?;
    let next = read_extent(file, version.next, lengths)?;
    Ok(Parsed {
        value: version.value,
        next,
    })
}
