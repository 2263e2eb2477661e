// A line that grows in a buffer of N bytes: a piece for which there is no room is left out.
ghost use Rattle.std.specs.Prelude.{◌≡◌, ℕ, ◌≤◌, List, [], take, length};
ghost use Rattle.text.specs.Text.{decimal, name_text};
ghost use Rattle.text.specs.Line.{Pushes};

use crate::append::add_name;
use crate::digits_of;
use plan::kinds::Name;
use std::marker::Model;

#[derive(Drop)]
pub struct Line<const N: usize> {
    bytes: [u8; N],
    length: usize,
}

// Clauses see the bytes that the line has so far.
impl<const N: usize> Model for Line<N> {
    ghost Value = { List ℕ };

    ghost view = { λ line. take line.length line.bytes };

    ghost invariant = { λ line. line.length ≤ N };
}

impl<const N: usize> Line<N> {
    pub fn new() -> Self
        ensures { result ≡ [] }
    {
        Line {
            bytes: [0; N],
            length: 0,
        }
    }

    // Appends some bytes.
    pub fn push(&mut self, piece: &[u8])
        ensures { Pushes N self.old piece.now self.new }
    {
        if N - self.length < piece.len() {
            return;
        }
        let end = self.length + piece.len();
        let bytes = &mut self.bytes[..];
        bytes[self.length..end].copy_from_slice(piece);
        self.length = end;
    }

    // Appends a number in decimal.
    pub fn push_number(&mut self, number: u32)
        ensures { Pushes N self.old (decimal number) self.new }
    {
        let digits = digits_of(number);
        self.push(digits.as_slice());
    }

    // Appends a name.
    #[tactic(auto, unfolding(crate::specs::Append::end_after, crate::specs::Append::appended))]
    pub fn push_name(&mut self, name: Name)
        ensures { Pushes N self.old (name_text name.0) self.new }
    {
        self.length = add_name(&mut self.bytes, self.length, name);
    }

    // The line's length.
    pub fn len(&self) -> usize
        ensures { result ≡ length self.now }
    {
        self.as_slice().len()
    }

    // The line.
    pub fn as_slice(&self) -> &[u8]
        ensures { result.now ≡ self.now }
    {
        &self.bytes[..self.length]
    }
}
