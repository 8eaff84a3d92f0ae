// The starts at which a string fits into the text of an index, searched together in one window. A local array is cleared when it is made,
// so the window comes in three sizes.
ghost use Rattle.std.specs.Prelude.{◌≡◌, suc, ◌-◌, ◌≤◌, length};
ghost use Rattle.spec.specs.Dictionary.{longest_text};
ghost use Rattle.spec.specs.Index.{n_of};
ghost use Rattle.spec.specs.Search.{find};
ghost use Rattle.spec.specs.Refusals.{answer_of};
ghost use Rattle.laws.specs.Search.Sizing.{IsString, Sized};
ghost use Rattle.laws.specs.Window.Searching.{WindowSays};
ghost use Rattle.dictionary.specs.Words.{lexicon_of};

use crate::window::search_cleared;
use directory::lines::Postings;
use layout::fields::text_len;
use spec::Refusal;
use width::{LONGEST, Number};

// A string that an index is searched for, and how many starts there are at which it fits into the text.
#[derive(Clone, Copy)]
pub(crate) struct Starts<'a> {
    pub(crate) postings: Postings<'a>,
    pub(crate) string: &'a [u16],
    pub(crate) count: usize,
    ghost is_string: { IsString string.now },
    ghost counted: { count ≡ suc (n_of postings.directory.index.now) - length string.now },
    ghost short: { count ≤ longest_text },
}

impl<'a> Starts<'a> {
    // The starts at which a string fits into the text of an index.
    pub(crate) fn new(postings: Postings<'a>, string: &'a [u16]) -> Starts<'a>
        requires { IsString string.now }
        ensures { (result.postings ≡ postings.entry) × (result.string ≡ string.entry) }
    {
        let n = text_len(postings.directory.index);
        Starts {
            postings,
            string,
            count: (n + 1).saturating_sub(string.len()),
        }
    }
}

// Searches at most `STARTS` starts, in a local window.
fn search_in<const STARTS: usize>(starts: &Starts, output: &mut [Number]) -> Result<usize, Refusal>
    requires { (starts.now.count ≤ STARTS) × (STARTS ≤ longest_text) }
    ensures { WindowSays (lexicon_of starts.now.postings.directory.words) starts.now.postings.directory.index.now starts.now.string.now
        starts.now.count 1 (answer_of result) output.old output.new }
{
    let mut reach: [Number; STARTS] = [0; STARTS];
    search_cleared(starts, &mut reach[..starts.count], output)
}

// Searches all starts, in the smallest window that is long enough.
pub(crate) fn search_starts(starts: &Starts, output: &mut [Number]) -> Result<usize, Refusal>
    ensures { Sized (find (lexicon_of starts.now.postings.directory.words) starts.now.postings.directory.index.now starts.now.string.now)
        (answer_of result) output.old output.new }
{
    if starts.count <= 1024 {
        return search_in::<1024>(starts, output);
    }
    if starts.count <= 8192 {
        return search_in::<8192>(starts, output);
    }
    search_in::<LONGEST>(starts, output)
}
