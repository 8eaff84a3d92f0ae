// The first found of the starts at which a string fits, by the entries, window by window.
//
// The first 8,192 starts are searched, and the others only where none of these is found, so that entries behind the window are not visited.
// A local array is cleared when it is made, so at most 1,024 starts take a smaller window.
ghost use Rattle.std.specs.Prelude.{◌+◌, ◌^◌, ◌≤◌};
ghost use Rattle.spec.specs.Dictionary.{longest_text};
ghost use Rattle.dictionary.specs.Words.{lexicon_of};
ghost use Rattle.finding.specs.First.{FirstFound};

use crate::starts::Starts;
use agreement::leading::list_leading;
use cover::window::Query;
use finding::window::first_in_window;
use width::{LONGEST, Number};

// The first found of at most `STARTS` starts from `first` on, in a local window.
fn first_in<const STARTS: usize>(query: &Query, first: usize, count: usize) -> Option<usize>
    requires { (first + count ≤ 2 ^ 32) × (count ≤ STARTS) × (STARTS ≤ longest_text) }
    ensures { FirstFound (lexicon_of query.now.postings.directory.words) query.now.postings.directory.index.now query.now.string.now
        count first result }
{
    let mut reach: [Number; STARTS] = [0; STARTS];
    first_in_window(query, first, &mut reach[..count])
}

// The first found of `count` starts: in one window if it holds all, else in 8,192 starts and then in the rest.
fn first_by_windows(query: &Query, count: usize) -> Option<usize>
    requires { count ≤ longest_text }
    ensures { FirstFound (lexicon_of query.now.postings.directory.words) query.now.postings.directory.index.now query.now.string.now
        count 1 result }
{
    if count <= 1024 {
        return first_in::<1024>(query, 1, count);
    }
    if count <= 8192 {
        return first_in::<8192>(query, 1, count);
    }
    let near = first_in::<8192>(query, 1, 8192);
    if near.is_some() {
        return near;
    }
    first_in::<LONGEST>(query, 8193, count - 8192)
}

// The first found of all starts by the entries, with the leading lines listed once for all windows.
pub(crate) fn first_by_entries(starts: &Starts) -> Option<usize>
    ensures { FirstFound (lexicon_of starts.now.postings.directory.words) starts.now.postings.directory.index.now starts.now.string.now
        starts.now.count 1 result }
{
    let mut lines = [0u16; 4096];
    let leading = list_leading(&starts.postings.directory, starts.string, 0, &mut lines);
    let query = Query {
        postings: starts.postings,
        string: starts.string,
        word_lines: leading.words,
        leading: &lines[..leading.count],
    };
    first_by_windows(&query, starts.count)
}
