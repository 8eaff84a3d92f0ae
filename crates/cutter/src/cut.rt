// The cut-down index for one string, as a call: refusals, size, and what is written.
//
// Each line has a flag in a local array. A local array is cleared when it is made, so it comes in three sizes.
ghost use Rattle.std.specs.Prelude.{◌^◌, ◌≤◌};
ghost use Rattle.spec.specs.Dictionary.{longest_text};
ghost use Rattle.spec.specs.Index.{keys_of};
ghost use Rattle.spec.specs.Cut.{cut_down};
ghost use Rattle.spec.specs.Calls.{CutSays};
ghost use Rattle.spec.specs.Refusals.{answer_of};
ghost use Rattle.laws.specs.Search.Sizing.{IsString, Sized};
ghost use Rattle.dictionary.specs.Words.{lexicon_of};

use crate::cutting::Flagged;
use bearing::bearing::flag_bearing;
use directory::lines::Directory;
use directory::opened::directory_of;
use folding::forms::replaced_string;
use layout::fields::{MOST_KEYS, key_count, line_start};
use opening::opened::open_index;
use opening::string::check_string;
use spec::Refusal;
use width::Number;

// Cuts down an index of at most `KEYS` lines for a string taken as it is, with local flags.
fn cut_within<const KEYS: usize>(
    directory: &Directory,
    string: &[u16],
    output: &mut [Number],
) -> Result<usize, Refusal>
    requires is_string { IsString string.now }
    requires few { keys_of directory.now.index.now ≤ KEYS }
    requires small { KEYS ≤ 2 ^ 32 }
    ensures { Sized (cut_down (lexicon_of directory.now.words) directory.now.index.now string.now)
        (answer_of result) output.old output.new }
{
    let mut flags = [0u8; KEYS];
    flag_bearing(directory, string, &mut flags);
    let flagged = Flagged {
        directory: *directory,
        string,
        flags: &flags,
    };
    let size = flagged.size();
    let count = line_start(size.keys) + size.entries;
    if output.len() < count {
        return Err(Refusal::OutputShort);
    }
    flagged.write(size, output);
    Ok(count)
}

// Cuts down an index, with the smallest array of flags that is long enough. Choices of a size are not shared with search: they would take
// a closure, and of an output that it captures nothing would be known.
fn cut_lines(directory: &Directory, string: &[u16], output: &mut [Number]) -> Result<usize, Refusal>
    requires { IsString string.now }
    ensures { Sized (cut_down (lexicon_of directory.now.words) directory.now.index.now string.now)
        (answer_of result) output.old output.new }
{
    let keys = key_count(directory.index);
    if keys <= 1024 {
        return cut_within::<1024>(directory, string, output);
    }
    if keys <= 8192 {
        return cut_within::<8192>(directory, string, output);
    }
    cut_within::<MOST_KEYS>(directory, string, output)
}

// Cuts an index down for a string as it is lent, which is replaced first: writes the cut-down index, and answers how many numbers it has,
// or the refusal.
pub fn cut_index(
    chars: &[u16],
    lengths: &[u16],
    index: &[Number],
    string: &[u16],
    output: &mut [Number],
) -> Result<usize, Refusal>
    ensures { CutSays longest_text chars.now lengths.now index.now string.now (answer_of result) output.old output.new }
{
    let opened = open_index(chars, lengths, index)?;
    check_string(string)?;
    let own = replaced_string(string);
    let mut word_starts = [0u16; 4097];
    let directory = directory_of(opened, &mut word_starts);
    cut_lines(&directory, &own[..string.len()], output)
}
