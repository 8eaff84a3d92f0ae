// Text scan: fills a window of starts from the text reconstructed from the entries, for strings that would visit very many entries.
//
// The text is reconstructed over a sentinel, the least number that is no character of the string. If every entry stands in it, the string
// is found exactly where it stands in that text, and the Z-algorithm finds that in linear time whatever the characters are. If two entries
// contradict each other, one of them does not stand in it, and the window is left unchanged.
ghost use Rattle.std.specs.Prelude.{◌≡◌, true, false, ℕ, suc, ◌+◌, ◌≤◌, length};
ghost use Rattle.basics.specs.Absent.{LeastAbsent};
ghost use Rattle.spec.specs.Index.{n_of, lines_in};
ghost use Rattle.laws.specs.TextScan.ZSearch.{PrefixLengths};
ghost use Rattle.laws.specs.TextScan.ReconstructedSearch.{Checked, Finds};
ghost use Rattle.dictionary.specs.Words.{lexicon_of};

use directory::lines::Directory;
use reconstruction::checked::reconstruct_checked;
use width::Number;
use zsearch::prefix_lengths::fill_prefix_lengths;
use zsearch::sentinel::sentinel_of;
use zsearch::zarray::fill_zarray;

// Fills the window with the length of the longest prefix of the string that matches at each start of a text.
fn reach_prefixes(text: &[Number], string: &[u16], reach: &mut [Number])
    requires { (length string.now ≤ 256) × (length reach.old + length string.now ≤ suc (length text.now)) }
    ensures { PrefixLengths string.now text.now reach.new }
{
    let mut zarray = [0u16; 256];
    fill_zarray(string, &mut zarray);
    fill_prefix_lengths(text, string, &zarray, reach);
}

// Reconstructs the text in the slice lent for it, and answers whether every entry stands there. Only then is the window filled.
pub fn reach_reconstructed(
    directory: &Directory,
    string: &[u16],
    text: &mut [Number],
    reach: &mut [Number],
) -> bool
    requires { (length text.old ≡ n_of directory.now.index.now) × (length string.now ≤ 256) ×
        (length reach.old + length string.now ≤ suc (n_of directory.now.index.now)) }
    ensures told { result ≡ true → Finds (lexicon_of directory.now.words) directory.now.index.now string.now reach.new }
    ensures kept { result ≡ false → reach.new ≡ reach.old }
    ensures reconstructed { (g : ℕ) → LeastAbsent string.now g → Checked (lexicon_of directory.now.words)
        (lines_in directory.now.index.now) (n_of directory.now.index.now) g text.new result }
    ensures reached { result ≡ true → PrefixLengths string.now text.new reach.new }
{
    let sentinel = sentinel_of(string);
    if !reconstruct_checked(directory, sentinel, text) {
        return false;
    }
    reach_prefixes(text, string, reach);
    true
}
