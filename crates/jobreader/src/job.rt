// A job: what a sheet asks for, read and tested whole before anything is printed. 10 is tested by the sheet's length, 11 by its form and
// counts, then the dictionary, then each find.
ghost use Rattle.std.specs.Prelude.{◌≡◌, ◌+◌, ◌≤◌, length, take, drop, IfOk};
ghost use Rattle.spec.specs.JobSheet.{sheet_refusal};
ghost use Rattle.spec.specs.Refusals.{number_of};
ghost use Rattle.models.specs.JobSheet.{some_length_wrong, parts_refusal};
ghost use Rattle.laws.specs.JobSheet.JobReading.{JobParts};

use crate::sheet::{Parts, read_sheet};
use dictionary::admission::admit;
use spec::Refusal;

// Whether some length is 0 or above 256.
fn some_length_wrong(lengths: &[u16]) -> bool
    ensures { result ≡ some_length_wrong lengths.now }
{
    lengths.iter().any(|len| *len == 0 || 256 < *len)
}

// Tests the dictionary of a sheet that is read, and then the lengths of its finds.
fn test_job(parts: &Parts, chars: &[u16], lengths: &[u16]) -> Result<(), Refusal>
    requires { (parts.now.dictionary ≤ length chars.now) × (parts.now.words + 1 + parts.now.finds ≤ length lengths.now) }
    ensures { number_of result ≡ parts_refusal (take parts.now.dictionary chars.now) (take parts.now.words lengths.now)
        (take parts.now.finds (drop (parts.now.words + 1) lengths.now)) }
{
    admit(&chars[..parts.dictionary], &lengths[..parts.words])?;
    let first = parts.words + 1;
    let end = first + parts.finds;
    if some_length_wrong(&lengths[first..end]) {
        return Err(Refusal::StringWrong);
    }
    Ok(())
}

// Reads a job and tests all of it. Refusals 10, 11, 1, 2, 3, 12, 6.
pub fn read_job(sheet: &[u8], chars: &mut [u16], lengths: &mut [u16]) -> Result<Parts, Refusal>
    requires { (6554 ≤ length chars.old) × (4682 ≤ length lengths.old) }
    ensures refusal { number_of result ≡ sheet_refusal sheet.now }
    ensures parts { IfOk result (λ job. JobParts sheet.now job.words job.dictionary job.text job.finds chars.new lengths.new) }
{
    if 32768 < sheet.len() {
        return Err(Refusal::SheetTooLong);
    }
    let parts = read_sheet(sheet, chars, lengths).ok_or(Refusal::SheetWrong)?;
    test_job(&parts, chars, lengths)?;
    Ok(parts)
}
