// Search of an index without its text: the tables of starts, and the call.
//
// A local array is cleared when it is made, so the table that grows with the index comes in three sizes. The tables are the same for every
// string: a caller that searches for many fills them once.
ghost use Rattle.std.specs.Prelude.{◌≡◌, ◌^◌, ◌≤◌};
ghost use Rattle.spec.specs.Replaced.{replaced};
ghost use Rattle.spec.specs.Dictionary.{longest_text};
ghost use Rattle.spec.specs.Index.{keys_of};
ghost use Rattle.spec.specs.Search.{find};
ghost use Rattle.spec.specs.Calls.{SearchSays};
ghost use Rattle.spec.specs.Refusals.{answer_of};
ghost use Rattle.laws.specs.Search.Sizing.{IsString, Sized};
ghost use Rattle.dictionary.specs.Words.{lexicon_of};

use crate::starts::{Starts, search_starts};
use directory::lines::{Directory, Postings};
use directory::opened::{directory_of, postings_of};
use folding::forms::replaced_string;
use layout::fields::{MOST_KEYS, key_count};
use opening::opened::open_index;
use opening::string::check_string;
use spec::Refusal;
use width::{Number, Sum};

// Searches a readable index, with its tables of starts lent, for a string as it is lent, which is replaced first.
pub fn search_tabled(
    postings: &Postings,
    string: &[u16],
    output: &mut [Number],
) -> Result<usize, Refusal>
    requires { IsString string.now }
    ensures { Sized (find (lexicon_of postings.now.directory.words) postings.now.directory.index.now (replaced string.now))
        (answer_of result) output.old output.new }
{
    let own = replaced_string(string);
    let starts = Starts::new(*postings, &own[..string.len()]);
    search_starts(&starts, output)
}

// Searches an index of at most `KEYS` lines, with a local table of list starts.
fn search_within<const KEYS: usize>(
    directory: &Directory,
    string: &[u16],
    output: &mut [Number],
) -> Result<usize, Refusal>
    requires { IsString string.now × (keys_of directory.now.index.now ≤ KEYS) × (KEYS ≤ 2 ^ 32) }
    ensures { Sized (find (lexicon_of directory.now.words) directory.now.index.now (replaced string.now))
        (answer_of result) output.old output.new }
{
    let mut list_starts: [Sum; KEYS] = [0; KEYS];
    let postings = postings_of(*directory, &mut list_starts);
    search_tabled(&postings, string, output)
}

// Searches a readable index, with the smallest table of list starts that is long enough.
fn search_lines(
    directory: &Directory,
    string: &[u16],
    output: &mut [Number],
) -> Result<usize, Refusal>
    requires { IsString string.now }
    ensures { Sized (find (lexicon_of directory.now.words) directory.now.index.now (replaced string.now))
        (answer_of result) output.old output.new }
{
    let keys = key_count(directory.index);
    if keys <= 1024 {
        return search_within::<1024>(directory, string, output);
    }
    if keys <= 8192 {
        return search_within::<8192>(directory, string, output);
    }
    search_within::<MOST_KEYS>(directory, string, output)
}

// Searches an index for a string: writes the positions found, ascending, and answers how many they are, or the refusal.
pub fn search_index(
    chars: &[u16],
    lengths: &[u16],
    index: &[Number],
    string: &[u16],
    output: &mut [Number],
) -> Result<usize, Refusal>
    ensures { SearchSays longest_text chars.now lengths.now index.now string.now (answer_of result) output.old output.new }
{
    let opened = open_index(chars, lengths, index)?;
    check_string(string)?;
    let mut word_starts = [0u16; 4097];
    let directory = directory_of(opened, &mut word_starts);
    search_lines(&directory, string, output)
}
