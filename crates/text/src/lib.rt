// Numbers in decimal and names, as bytes that people read.
#![tactic(auto)]

pub mod append;
pub mod line;

ghost use Rattle.std.specs.Prelude.{◌≡◌, drop};
ghost use Rattle.text.specs.Text.{digits_of, name_text};

use plan::edition::Edition;
use plan::kinds::Name;

// The greatest number of digits of a 32-bit number.
pub const MOST_DIGITS: usize = 10;

// The digits of a number: the bytes from index `from` to the end. Before them are zeros.
#[derive(Clone, Copy)]
pub struct Digits {
    pub bytes: [u8; MOST_DIGITS],
    pub from: usize,
}

impl Digits {
    // The digits alone.
    pub fn as_slice(&self) -> &[u8]
        ensures { result.now ≡ drop self.now.from self.now.bytes }
    {
        &self.bytes[self.from.min(MOST_DIGITS)..]
    }
}

// The decimal digits of a number, computed from the last to the first.
pub fn digits_of(number: u32) -> Digits
    ensures { result ≡ digits_of number }
{
    let mut bytes = [0u8; MOST_DIGITS];
    let mut from = MOST_DIGITS - 1;
    let mut rest = number;
    while 10 <= rest {
        bytes[from] = b'0' + (rest % 10) as u8;
        from -= 1;
        rest = rest / 10;
    }
    bytes[from] = b'0' + rest as u8;
    Digits { bytes, from }
}

// The eight bytes of a name.
pub fn name_text(name: Name) -> [u8; Edition::NAME_BYTES]
    ensures { result ≡ name_text name.0 }
{
    name.0.to_be_bytes()
}
