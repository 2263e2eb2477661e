// The length byte at the front of a record.
ghost use Rattle.fields.specs.Answers.{ReadsLength};

use crate::field::read;
use plan::refusal::{Reason, Refusal};

// The length byte of a record, which must be `length`.
pub fn read_length(file: &[u8], at: usize, length: u64) -> Result<usize, Refusal>
    ensures { ReadsLength file.now at length result }
{
    let says = read::<u8>(file, at)?;
    if u64::from(says.value) != length {
        return Err(Refusal {
            reason: Reason::WrongRecordLength,
            offset: at,
        });
    }
    Ok(says.next)
}
