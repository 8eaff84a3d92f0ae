// Searches the starts of an opened index: by a scan of the reconstructed text where that is cheaper and every entry
// stands in it, else by the entries.
ghost use Rattle.std.specs.Prelude.{◌≡◌, true, false, ◌≤◌, length, replicate};
ghost use Rattle.spec.specs.Refusals.{answer_of};
ghost use Rattle.laws.specs.TextScan.ReconstructedSearch.{Finds};
ghost use Rattle.laws.specs.Window.Searching.{WindowSays};
ghost use Rattle.dictionary.specs.Words.{lexicon_of};

use crate::estimate::prefers_text_scan;
use crate::starts::Starts;
use finding::text_scan::reach_reconstructed;
use finding::window::{answer_window, search_window};
use layout::fields::text_len;
use spec::Refusal;
use width::{LONGEST, Number};

// Fills the window of all starts from the text reconstructed in a local array, which is made and cleared only here. Answers whether every
// entry stands there.
pub(crate) fn reach_by_text(starts: &Starts, reach: &mut [Number]) -> bool
    requires { (1 ≤ starts.now.count) × (length reach.old ≡ starts.now.count) }
    ensures told { result ≡ true → Finds (lexicon_of starts.now.postings.directory.words) starts.now.postings.directory.index.now
        starts.now.string.now reach.new }
    ensures kept { result ≡ false → reach.new ≡ reach.old }
{
    let mut room: [Number; LONGEST] = [0; LONGEST];
    let directory = &starts.postings.directory;
    let n = text_len(directory.index);
    reach_reconstructed(directory, starts.string, &mut room[..n], reach)
}

// Searches all starts in a cleared window: by the reconstructed text if that is estimated to be cheaper and every entry stands there.
pub(crate) fn search_cleared(
    starts: &Starts,
    reach: &mut [Number],
    output: &mut [Number],
) -> Result<usize, Refusal>
    requires { (length reach.old ≡ starts.now.count) × (reach.old ≡ replicate (length reach.old) 0) }
    ensures { WindowSays (lexicon_of starts.now.postings.directory.words) starts.now.postings.directory.index.now starts.now.string.now
        (length reach.old) 1 (answer_of result) output.old output.new }
{
    if prefers_text_scan(starts) && reach_by_text(starts, reach) {
        return answer_window(reach, starts.string.len(), 1, output);
    }
    search_window(&starts.postings, starts.string, 1, reach, output)
}
