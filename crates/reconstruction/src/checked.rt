// The text reconstructed from the entries of an index over a sentinel, and whether every entry stands in it.
//
// Where two entries contradict each other, one of them does not stand in the reconstructed text.
ghost use Rattle.std.specs.Prelude.{◌≡◌, ◌≤◌, length};
ghost use Rattle.spec.specs.Index.{greatest_number, n_of, lines_in};
ghost use Rattle.laws.specs.TextScan.ReconstructedSearch.{Checked};
ghost use Rattle.dictionary.specs.Words.{lexicon_of};

use crate::entries::reconstruct_entries;
use crate::matches::entries_match;
use directory::lines::Directory;
use width::Number;

// Reconstructs the text from every entry of a readable index over `sentinel`. Answers whether every entry stands in it.
pub fn reconstruct_checked(directory: &Directory, sentinel: usize, text: &mut [Number]) -> bool
    requires { (length text.old ≡ n_of directory.now.index.now) × (sentinel ≤ greatest_number) }
    ensures { Checked (lexicon_of directory.now.words) (lines_in directory.now.index.now) (n_of directory.now.index.now)
        sentinel text.new result }
{
    text.fill(sentinel as Number);
    reconstruct_entries(directory, text);
    entries_match(directory, text)
}
