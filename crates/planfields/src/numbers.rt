// Reading the numbers after the jobs: the row count, and a row's interval and units.
ghost use Rattle.planfields.specs.Answers.{ReadsRowCount, ReadsInterval, ReadsUnits};

use fields::field::{Parsed, read};
use plan::refusal::{Reason, Refusal};
use plan::versions::rows_allowed_in;

pub fn read_row_count(file: &[u8], at: usize, version: u8) -> Result<Parsed<u16>, Refusal>
    ensures { ReadsRowCount file.now at version result }
{
    let rows = read::<u16>(file, at)?;
    if !rows_allowed_in(version, u64::from(rows.value)) {
        return Err(Refusal {
            reason: Reason::TooManyRows,
            offset: at,
        });
    }
    Ok(rows)
}

pub fn read_interval(file: &[u8], at: usize, spans: usize) -> Result<Parsed<u16>, Refusal>
    ensures { ReadsInterval file.now at spans result }
{
    let interval = read::<u16>(file, at)?;
    if usize::from(interval.value) >= spans {
        return Err(Refusal {
            reason: Reason::RowWithoutInterval,
            offset: at,
        });
    }
    Ok(interval)
}

pub fn read_units(file: &[u8], at: usize) -> Result<Parsed<u32>, Refusal>
    ensures { ReadsUnits file.now at result }
{
    let units = read::<u32>(file, at)?;
    if units.value == 0 {
        return Err(Refusal {
            reason: Reason::RowWithoutUnits,
            offset: at,
        });
    }
    Ok(units)
}
