// The lines of an accepted job: those of the text's index, then those of the finds. The index, the tables of starts and the found positions
// are local, so that only the buffer for the lines is lent.
ghost use Rattle.std.specs.Prelude.{◌≤◌, length};
ghost use Rattle.basics.specs.Placed.{Wrote};
ghost use Rattle.models.specs.JobSheet.{shown, printed_of};
ghost use Rattle.laws.specs.JobSheet.AcceptedCalls.{Usable};

use crate::finds::put_finds;
use crate::job::Job;
use builder::build::build;
use directory::opened::{directory_of, postings_of};
use layout::fields::HEADER;
use opening::opened::open_index;
use printer::print::put_index_lines;
use width::{Number, Sum};

// The most numbers that the index of a text of at most 2,000 characters has.
const LONGEST_INDEX: usize = HEADER + 4 * 2000;

// Writes the lines of an index that is accepted and those of the finds, for all of which it is opened once. An index of at most 8,002
// numbers has fewer than 2,667 lines.
fn put_lines<'a>(job: Job<'a>, index: &'a [Number], out: &mut [u8]) -> usize
    requires { Usable job.chars.now job.lengths.now index.now × (700000 ≤ length out.old) }
    ensures { Wrote (shown job.entry.chars.now job.entry.lengths.now index.now job.entry.strings.now job.entry.counts.now) 0
        out.old result out.new }
{
    let opened = open_index(job.chars, job.lengths, index).unwrap();
    let mut word_starts = [0u16; 4097];
    let mut list_starts: [Sum; 2667] = [0; 2667];
    let mut found: [Number; 2000] = [0; 2000];
    let directory = directory_of(opened, &mut word_starts);
    let postings = postings_of(directory, &mut list_starts);
    let end = put_index_lines(out, 0, index);
    put_finds(&postings, job.strings, job.counts, &mut found, out, end)
}

// Builds the index of a job's text, and writes its lines and those of the finds. The build is accepted: the slices lent to it are long
// enough for 2,000 characters.
pub(crate) fn put_printed(job: Job, out: &mut [u8]) -> usize
    requires { 700000 ≤ length out.old }
    ensures { Wrote (printed_of job.entry.chars.now job.entry.lengths.now job.entry.text.now job.entry.strings.now job.entry.counts.now) 0
        out.old result out.new }
{
    let mut index: [Number; LONGEST_INDEX] = [0; LONGEST_INDEX];
    let mut work: [Number; 16000] = [0; 16000];
    let count = build(job.chars, job.lengths, job.text, &mut index, &mut work).unwrap();
    put_lines(job, &index[..count], out)
}
