// The program: reads a job sheet from standard input and writes its answer to standard output.
//
// The input is read to its end, or to one byte past the longest sheet, which is enough to refuse a longer one. One call on
// these bytes does all the work.
#![tactic(auto)]

ghost use Rattle.std.specs.Prelude.{◌≤◌, IfOk, length};
ghost use Rattle.spec.specs.JobAnswer.{job_answer};
ghost use Rattle.laws.specs.JobSheet.AcceptedCalls.{InHand};

use jobsheet::answer::answer;
use std::io;
use std::io::{Read, Write};

// Room for the longest sheet and one byte more.
fn sheet_buffer() -> [u8; 32769] {
    [0; 32769]
}

// Room for any answer. Each buffer is made in a function of its own, so that no proof computes its zeros.
fn output_buffer() -> [u8; 700000] {
    [0; 700000]
}

// Writes the answer to a sheet to the start of the output, which holds any, and answers how many bytes it has.
fn put_answer(sheet: &[u8], output: &mut [u8]) -> usize
    requires { 700000 ≤ length output.old }
    ensures { InHand (job_answer sheet.now) result output.new }
{
    answer(sheet, output).unwrap()
}

// Reads until the buffer is full or the input ends, and answers how many bytes it put at the start of the buffer.
fn read_full<R: Read>(input: &mut R, buffer: &mut [u8]) -> io::Result<usize>
    ensures { IfOk result (λ count. count ≤ length buffer.new) }
{
    let mut done = 0;
    // A `while`: a read takes as many bytes as there are, so the index jumps.
    while done < buffer.len() {
        let count = input.read(&mut buffer[done..])?;
        if count == 0 {
            break;
        }
        done += count;
    }
    Ok(done)
}

fn main(rt: HostRuntime) -> io::Result<()> {
    let mut sheet = sheet_buffer();
    let length = read_full(&mut rt.reader(), &mut sheet)?;
    let mut output = output_buffer();
    let count = put_answer(&sheet[..length], &mut output);
    rt.stdout().write_all(&output[..count])
}
