// The answer to a job sheet, as a function from bytes to bytes.
//
// The whole job is read and tested before anything is printed. The lines go to a local buffer of 700,000 bytes, which is proved to hold
// every answer; once their length is known, the output takes all of them or stays unchanged.
ghost use Rattle.std.specs.Prelude.{◌≤◌, length};
ghost use Rattle.basics.specs.Placed.{Wrote};
ghost use Rattle.spec.specs.JobAnswer.{job_answer, JobSays};
ghost use Rattle.spec.specs.Refusals.{answer_of};
ghost use Rattle.laws.specs.Search.Sizing.{Sized};
ghost use Rattle.laws.specs.JobSheet.JobParts.{PartsThere, printed_there};

use crate::job::Job;
use crate::lines::put_printed;
use jobreader::job::read_job;
use jobreader::sheet::Parts;
use printer::print::{put_bytes, put_refused_line};
use spec::Refusal;

// Writes the lines of a job that is not refused, from the parts of the slices it was read into.
fn put_parts(parts: &Parts, chars: &[u16], lengths: &[u16], out: &mut [u8]) -> usize
    requires { PartsThere parts.now.words parts.now.dictionary parts.now.text parts.now.finds chars.now lengths.now
        × (700000 ≤ length out.old) }
    ensures { Wrote (printed_there parts.now.words parts.now.dictionary parts.now.text parts.now.finds chars.now lengths.now) 0
        out.old result out.new }
{
    let dictionary = parts.dictionary;
    let after = dictionary + parts.text;
    let first = parts.words + 1;
    let end = first + parts.finds;
    let job = Job {
        chars: &chars[..dictionary],
        lengths: &lengths[..parts.words],
        text: &chars[dictionary..after],
        strings: &chars[after..],
        counts: &lengths[first..end],
    };
    put_printed(job, out)
}

// Writes the answer to a sheet into a slice that holds any.
fn put_answer(sheet: &[u8], out: &mut [u8]) -> usize
    requires { 700000 ≤ length out.old }
    ensures { Wrote (job_answer sheet.now) 0 out.old result out.new }
{
    let mut chars = [0u16; 6554];
    let mut lengths = [0u16; 4682];
    match read_job(sheet, &mut chars, &mut lengths) {
        Ok(parts) => put_parts(&parts, &chars, &lengths, out),
        Err(refusal) => put_refused_line(out, 0, refusal.number() as usize),
    }
}

// Copies bytes to the start of the output, unless it is too short for them.
fn hand_over(bytes: &[u8], output: &mut [u8]) -> Result<usize, Refusal>
    ensures { Sized bytes.now (answer_of result) output.old output.new }
{
    if output.len() < bytes.len() {
        return Err(Refusal::OutputShort);
    }
    Ok(put_bytes(output, 0, bytes))
}

// A buffer that holds any answer. It is made in a function of its own, so that no proof computes its 700,000 zeros.
fn blank() -> [u8; 700000] {
    [0u8; 700000]
}

// Answers a job sheet: writes the answer's bytes to the start of the output and answers how many they are, or 8 where
// the output is too short for them.
pub fn answer(sheet: &[u8], output: &mut [u8]) -> Result<usize, Refusal>
    ensures { JobSays sheet.now (answer_of result) output.old output.new }
{
    let mut buffer = blank();
    let end = put_answer(sheet, &mut buffer);
    hand_over(&buffer[..end], output)
}
