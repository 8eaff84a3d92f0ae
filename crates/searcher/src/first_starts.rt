// The first found of the starts at which a string fits, whichever way is cheaper.
//
// Where the estimate says that very many positions would be visited, the reconstructed text is scanned, as a whole search does; else the
// search goes by the entries, window by window.
ghost use Rattle.std.specs.Prelude.{◌≤◌};
ghost use Rattle.dictionary.specs.Words.{lexicon_of};
ghost use Rattle.finding.specs.First.{FirstFound};

use crate::estimate::prefers_text_scan;
use crate::first_windows::first_by_entries;
use crate::starts::Starts;
use crate::window::reach_by_text;
use finding::finding::first_found;
use width::{LONGEST, Number};

// The first found of all starts by the reconstructed text, with a local window, or by the entries where one of them does not stand in that
// text.
fn first_by_text(starts: &Starts) -> Option<usize>
    requires { 1 ≤ starts.now.count }
    ensures { FirstFound (lexicon_of starts.now.postings.directory.words) starts.now.postings.directory.index.now starts.now.string.now
        starts.now.count 1 result }
{
    let mut room: [Number; LONGEST] = [0; LONGEST];
    let reach = &mut room[..starts.count];
    if reach_by_text(starts, reach) {
        return first_found(reach, starts.string.len(), 1);
    }
    first_by_entries(starts)
}

// The first found of all starts, whichever way is cheaper.
pub(crate) fn first_of_starts(starts: &Starts) -> Option<usize>
    ensures { FirstFound (lexicon_of starts.now.postings.directory.words) starts.now.postings.directory.index.now starts.now.string.now
        starts.now.count 1 result }
{
    if prefers_text_scan(starts) {
        return first_by_text(starts);
    }
    first_by_entries(starts)
}
