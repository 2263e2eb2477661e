// Reading one field: a number of 1, 2, 4 or 8 bytes, highest byte first.
// Every field of a file is read through `read`; `planfile::extent`, which is asked before there is a whole
// file, looks at the bytes of the length field by itself.
ghost use Rattle.std.specs.Prelude.{◌≡◌, ℕ};
ghost use Rattle.fields.specs.Bytes.{value_of};
ghost use Rattle.fields.specs.Answers.{ReadsField};

use plan::refusal::{Reason, Refusal};

// What was read, and the offset of the next field.
#[derive(Clone, Copy, Debug, PartialEq, Eq)]
pub struct Parsed<T> {
    pub value: T,
    pub next: usize,
}

// A number that a field holds in some bytes.
pub trait Number: Copy {
    ghost WIDTH: { ℕ };

    ghost number: { Self → ℕ };

    const WIDTH: usize;

    // The number of as many bytes, highest first; 0 for more or fewer.
    fn from_bytes(bytes: &[u8]) -> Self
        ensures { number result ≡ value_of WIDTH bytes.now };
}

impl Number for u8 {
    ghost WIDTH = { 1 };

    ghost number = { λ x. x };

    const WIDTH: usize = 1;

    #[tactic(auto, using(crate::proofs::WholeBytes::value_one))]
    fn from_bytes(bytes: &[u8]) -> u8 {
        if bytes.len() != Self::WIDTH {
            return 0;
        }
        bytes[0]
    }
}

impl Number for u16 {
    ghost WIDTH = { 2 };

    ghost number = { λ x. x };

    const WIDTH: usize = 2;

    #[tactic(auto, using(crate::proofs::WholeBytes::value_two))]
    fn from_bytes(bytes: &[u8]) -> u16 {
        if bytes.len() != Self::WIDTH {
            return 0;
        }
        u16::from_be_bytes([bytes[0], bytes[1]])
    }
}

impl Number for u32 {
    ghost WIDTH = { 4 };

    ghost number = { λ x. x };

    const WIDTH: usize = 4;

    #[tactic(auto, using(crate::proofs::WholeBytes::value_four))]
    fn from_bytes(bytes: &[u8]) -> u32 {
        if bytes.len() != Self::WIDTH {
            return 0;
        }
        u32::from_be_bytes([bytes[0], bytes[1], bytes[2], bytes[3]])
    }
}

impl Number for u64 {
    ghost WIDTH = { 8 };

    ghost number = { λ x. x };

    const WIDTH: usize = 8;

    #[tactic(auto, using(crate::proofs::WholeBytes::value_eight))]
    fn from_bytes(bytes: &[u8]) -> u64 {
        if bytes.len() != Self::WIDTH {
            return 0;
        }
        u64::from_be_bytes([
            bytes[0], bytes[1], bytes[2], bytes[3], bytes[4], bytes[5], bytes[6], bytes[7],
        ])
    }
}

// The field at an offset. If the file ends inside it, it is refused at its first byte.
pub fn read<N: Number>(file: &[u8], at: usize) -> Result<Parsed<N>, Refusal>
    ensures { ReadsField N.WIDTH N.number file.now at result }
{
    if file.len() < at || file.len() - at < N::WIDTH {
        return Err(Refusal {
            reason: Reason::WrongExtent,
            offset: at,
        });
    }
    let next = at + N::WIDTH;
    let value = N::from_bytes(&file[at..next]);
    Ok(Parsed { value, next })
}
