// Reading the fields before the jobs: version, length, both rates and the job count.
ghost use Rattle.planfields.specs.Answers.{ReadsHead};

use fields::field::{Parsed, read};
use fields::opening::{LengthRule, read_opening};
use plan::edition::Edition;
use plan::kinds::Rate;
use plan::refusal::{Reason, Refusal};
use plan::rules::rates_allowed;
use plan::versions::count_allowed_in;

#[derive(Clone, Copy)]
pub struct Head {
    pub version: u8,
    pub n: Rate,
    pub d: Rate,
    pub count: usize,
}

pub fn read_head(file: &[u8], lengths: LengthRule) -> Result<Parsed<Head>, Refusal>
    ensures { ReadsHead file.now lengths result }
{
    let version = read_opening(file, Edition::NEWEST_VERSION, lengths)?;
    let normal = read::<u16>(file, version.next)?;
    let floor = read::<u16>(file, normal.next)?;
    let n = Rate(normal.value);
    let d = Rate(floor.value);
    if !rates_allowed(n, d) {
        return Err(Refusal {
            reason: Reason::WrongRates,
            offset: version.next,
        });
    }
    let count = read::<u8>(file, floor.next)?;
    if !count_allowed_in(version.value, u64::from(count.value)) {
        return Err(Refusal {
            reason: Reason::WrongJobCount,
            offset: floor.next,
        });
    }
    Ok(Parsed {
        value: Head {
            version: version.value,
            n,
            d,
            count: usize::from(count.value),
        },
        next: count.next,
    })
}
