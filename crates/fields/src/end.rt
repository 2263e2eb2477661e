// The end of a file.
ghost use Rattle.fields.specs.Answers.{ReadsEnd};

use plan::refusal::{Reason, Refusal};

// The end of the file: the offset must be the file's length.
pub fn read_end(file: &[u8], at: usize) -> Result<usize, Refusal>
    ensures { ReadsEnd file.now at result }
{
    if at != file.len() {
        return Err(Refusal {
            reason: Reason::WrongExtent,
            offset: at,
        });
    }
    Ok(at)
}
