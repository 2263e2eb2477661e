// Lines that grow: a piece is appended to the first `at` bytes of a buffer, and the answer is where
// the line then ends. Where there is no room for the piece, the buffer stays and the line ends where it did.
ghost use Rattle.text.specs.Text.{decimal, name_text};
ghost use Rattle.text.specs.Append.{Adds};

use crate::{digits_of, name_text};
use plan::kinds::Name;

// Appends some bytes to a line.
#[tactic(auto, unfolding(crate::specs::Append::end_after, crate::specs::Append::appended))]
pub fn add(line: &mut [u8], at: usize, piece: &[u8]) -> usize
    ensures { Adds line.old at piece.now result line.new }
{
    if line.len() < at || line.len() - at < piece.len() {
        return at;
    }
    let end = at + piece.len();
    line[at..end].copy_from_slice(piece);
    end
}

// Appends a number in decimal to a line.
pub fn add_number(line: &mut [u8], at: usize, number: u32) -> usize
    ensures { Adds line.old at (decimal number) result line.new }
{
    let digits = digits_of(number);
    add(line, at, digits.as_slice())
}

// Appends a name to a line.
pub fn add_name(line: &mut [u8], at: usize, name: Name) -> usize
    ensures { Adds line.old at (name_text name.0) result line.new }
{
    let bytes = name_text(name);
    add(line, at, &bytes)
}
