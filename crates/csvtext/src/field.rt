// One field of comma-separated text: where it ends, and what is known of the bytes that it stands for.
ghost use Rattle.std.specs.Prelude.{◌≡◌, false, ◌+◌, ◌*◌, ◌-◌, ◌≤◌, min, length, drop, Some};
ghost use Rattle.text.specs.Text.{digit};
ghost use Rattle.csvtext.specs.Grammar.{is_plain, is_quotable, plain, quoted, field};
ghost use Rattle.csvtext.specs.Decimals.{most_number};
ghost use Rattle.csvtext.specs.Inner.Seen.{nothing, with_byte, seen_at};

use fields::field::Parsed;
use plan::edition::Edition;

// Lengths from this one on are not told apart: a name has eight bytes, a grade one and a number at least
// one, so nothing asks for more.
const LONGEST: usize = Edition::NAME_BYTES + 1;

// A greater number is as wrong for every use as this one.
const MOST_NUMBER: u64 = 1_000_000_000;

// What is known of the bytes that a field stands for. No buffer holds them: a name, a grade and a number
// are all told from this.
#[derive(Clone, Copy)]
pub(crate) struct Seen {
    // How many bytes, or LONGEST if they are more.
    pub(crate) length: usize,
    // The last eight bytes as one number, the first of them highest.
    pub(crate) name: u64,
    // Whether they are digits alone, of which the first is no 0 unless it is the only one.
    pub(crate) decimal: bool,
    // The number that they stand for in decimal, or MOST_NUMBER if it is greater.
    pub(crate) number: u32,
}

// What is known of no bytes.
const NOTHING: Seen = Seen {
    length: 0,
    name: 0,
    decimal: true,
    number: 0,
};

fn is_plain(byte: u8) -> bool
    ensures { result ≡ is_plain byte }
{
    (0x20 <= byte) & (byte <= 0x7E) & (byte != b'"') & (byte != b',')
}

fn is_quotable(byte: u8) -> bool
    ensures { result ≡ is_quotable byte }
{
    is_plain(byte) | (byte == b',') | (byte == b'\r') | (byte == b'\n')
}

// The number after one digit more.
fn number_with(number: u32, byte: u8) -> u32
    ensures { result ≡ min (number * 10 + (byte - digit 0)) most_number }
{
    let digit = byte.saturating_sub(b'0');
    (u64::from(number) * 10 + u64::from(digit)).min(MOST_NUMBER) as u32
}

// What is known after one byte more.
#[tactic(auto, unfolding(crate::specs::Inner::Seen::with_byte))]
fn with_byte(seen: Seen, byte: u8) -> Seen
    ensures { result ≡ with_byte seen byte }
{
    let digits = seen.decimal & byte.is_ascii_digit();
    Seen {
        length: seen.length.min(LONGEST - 1) + 1,
        name: seen.name % 0x0100_0000_0000_0000 * 256 + u64::from(byte),
        decimal: digits & ((seen.length == 0) | (seen.number != 0)),
        number: number_with(seen.number, byte),
    }
}

// A field without quotes: all plain bytes up to the first other one.
#[tactic(auto, using(crate::proofs::FieldLaws::plain_over, crate::proofs::FieldLaws::plain_ends, crate::proofs::FieldLaws::plain_next))]
fn read_plain(text: &[u8], at: usize) -> Parsed<Seen>
    requires { at ≤ length text.now }
    ensures { Some result ≡ seen_at at nothing (plain (drop at text.now)) }
{
    let mut seen = NOTHING;
    for next in at..text.len() {
        let byte = text[next];
        if !is_plain(byte) {
            return Parsed { value: seen, next };
        }
        seen = with_byte(seen, byte);
    }
    Parsed {
        value: seen,
        next: text.len(),
    }
}

// A field in quotes, after its first quote. `closed` says that a quote stands before the byte in hand,
// which ends the field unless that byte is another quote: two of them stand for one.
#[tactic(auto, using(crate::proofs::FieldLaws::quoted_over, crate::proofs::FieldLaws::quoted_ends, crate::proofs::FieldLaws::quoted_breaks, crate::proofs::FieldLaws::quoted_next))]
fn read_quoted(text: &[u8], at: usize) -> Option<Parsed<Seen>>
    requires { at ≤ length text.now }
    ensures { result ≡ seen_at at nothing (quoted false (drop at text.now)) }
{
    let mut seen = NOTHING;
    let mut closed = false;
    for next in at..text.len() {
        let byte = text[next];
        let quote = byte == b'"';
        if closed & !quote {
            return Some(Parsed { value: seen, next });
        }
        if !(quote | is_quotable(byte)) {
            return None;
        }
        if closed | !quote {
            seen = with_byte(seen, byte);
        }
        closed = quote & !closed;
    }
    closed.then_some(Parsed {
        value: seen,
        next: text.len(),
    })
}

// A field: in quotes if its first byte is a quote; or the grammar has none there.
#[tactic(auto, using(crate::proofs::FieldLaws::field_over, crate::proofs::FieldLaws::field_quoted, crate::proofs::FieldLaws::field_plain))]
pub(crate) fn read_field(text: &[u8], at: usize) -> Option<Parsed<Seen>>
    ensures { result ≡ seen_at at nothing (field (drop at text.now)) }
{
    if text.len() <= at {
        return Some(Parsed {
            value: NOTHING,
            next: at,
        });
    }
    if text[at] == b'"' {
        return read_quoted(text, at + 1);
    }
    Some(read_plain(text, at))
}
