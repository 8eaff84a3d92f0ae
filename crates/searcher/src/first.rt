// The first found position of a string in an index, without its text: the tables of starts, and the call.
//
// A local array is cleared when it is made, so the table that grows with the index comes in three sizes. The size is chosen here as for
// a search of every position, without a shared function: nothing would be known of an output that a closure of the last step captures.
ghost use Rattle.std.specs.Prelude.{◌≡◌, ◌^◌, ◌≤◌, unwrap_or, IfOk, IfSome};
ghost use Rattle.spec.specs.Replaced.{replaced};
ghost use Rattle.spec.specs.Dictionary.{longest_text};
ghost use Rattle.spec.specs.Index.{keys_of};
ghost use Rattle.spec.specs.First.{first_position};
ghost use Rattle.spec.specs.Calls.{FirstSays};
ghost use Rattle.spec.specs.Refusals.{first_answer_of};
ghost use Rattle.laws.specs.Search.Sizing.{IsString};
ghost use Rattle.dictionary.specs.Words.{lexicon_of};

use crate::first_starts::first_of_starts;
use crate::starts::Starts;
use directory::lines::{Directory, Postings};
use directory::opened::{directory_of, postings_of};
use folding::forms::replaced_string;
use layout::fields::{MOST_KEYS, key_count};
use opening::opened::open_index;
use opening::string::check_string;
use spec::Refusal;
use width::{Number, Sum};

// The first found position of a string as it is lent, which is replaced first, in a readable index with its tables of starts lent.
fn first_tabled(postings: &Postings, string: &[u16]) -> Option<usize>
    requires { IsString string.now }
    ensures position { unwrap_or result 0 ≡ first_position (lexicon_of postings.now.directory.words) postings.now.directory.index.now
        (replaced string.now) }
    ensures onward { IfSome result (λ p. 1 ≤ p) }
{
    let own = replaced_string(string);
    let starts = Starts::new(*postings, &own[..string.len()]);
    first_of_starts(&starts)
}

// The first found position in an index of at most `KEYS` lines, with a local table of list starts.
fn first_within<const KEYS: usize>(directory: &Directory, string: &[u16]) -> Option<usize>
    requires { IsString string.now × (keys_of directory.now.index.now ≤ KEYS) × (KEYS ≤ 2 ^ 32) }
    ensures position { unwrap_or result 0 ≡ first_position (lexicon_of directory.now.words) directory.now.index.now (replaced string.now) }
    ensures onward { IfSome result (λ p. 1 ≤ p) }
{
    let mut list_starts: [Sum; KEYS] = [0; KEYS];
    let postings = postings_of(*directory, &mut list_starts);
    first_tabled(&postings, string)
}

// The first found position in a readable index, with the smallest table of list starts that is long enough.
fn first_lines(directory: &Directory, string: &[u16]) -> Option<usize>
    requires { IsString string.now }
    ensures position { unwrap_or result 0 ≡ first_position (lexicon_of directory.now.words) directory.now.index.now (replaced string.now) }
    ensures onward { IfSome result (λ p. 1 ≤ p) }
{
    let keys = key_count(directory.index);
    if keys <= 1024 {
        return first_within::<1024>(directory, string);
    }
    if keys <= 8192 {
        return first_within::<8192>(directory, string);
    }
    first_within::<MOST_KEYS>(directory, string)
}

// The first found position of a string in an index, if there is one, or the refusal.
pub fn first_index(
    chars: &[u16],
    lengths: &[u16],
    index: &[Number],
    string: &[u16],
) -> Result<Option<u32>, Refusal>
    ensures says { FirstSays longest_text chars.now lengths.now index.now string.now (first_answer_of result) }
    ensures onward { IfOk result (λ found. IfSome found (λ p. 1 ≤ p)) }
{
    let opened = open_index(chars, lengths, index)?;
    check_string(string)?;
    let mut word_starts = [0u16; 4097];
    let directory = directory_of(opened, &mut word_starts);
    Ok(first_lines(&directory, string).map(|position| position as u32))
}
