// Whether the directory lines of an index are good, with the list of each as it is reached: lines of words first, then those of lone
// characters.
//
// Whether a lone character is a word is found by a walk over the words beside the lines, a merge, since both ascend. Sums are in `usize`,
// so that no number of keys and no count wraps. The cost is linear in the index and the dictionary.
ghost use Rattle.std.specs.Prelude.{◌≡◌, [], ◌∷◌, ◌+◌, ◌*◌, ◌-◌, ◌≤◌, length, drop};
ghost use Rattle.spec.specs.Dictionary.{lexicon};
ghost use Rattle.spec.specs.Words.{key, is_word};
ghost use Rattle.spec.specs.Index.{header, greatest_number, keys_of};
ghost use Rattle.models.specs.Readability.{line_fits, walk_good, read_as};
ghost use Rattle.laws.specs.Readable.LineSteps.{LinesRead};
ghost use Rattle.laws.specs.Readable.LoneWords.{Passed};

use crate::lists::{ListForm, line_list_good};
use dictionary::admission::Dictionary;
use layout::fields::{key_count, line_start, text_len};
use layout::lines::{Line, next_line};
use width::Number;

// The greatest character, which a lone key may be. The test against it is one for wider numbers: 16-bit numbers state no greater value.
const GREATEST_CHAR: usize = 65535;

// Whether a word's directory line is good, where word numbers from `least` on are allowed.
fn word_line_good<F: ListForm>(
    dictionary: &Dictionary,
    index: &[Number],
    line: Line,
    n: usize,
    least: usize,
) -> bool
    requires { (line.from ≤ line.to) × (line.from ≤ length index.now) ×
        (line.to - line.from ≤ greatest_number) × (n ≤ greatest_number) }
    ensures { result ≡ line_fits (read_as F.as_gaps) (lexicon dictionary.now.chars.now dictionary.now.lengths.now) n least
        (key 0 line.value) (line.to - line.from) (drop line.from index.now) }
{
    let value = line.value;
    if value < least {
        return false;
    }
    if dictionary.lengths.len() <= value {
        return false;
    }
    line_list_good::<F>(index, line, n, dictionary.lengths[value] as usize)
}

// A word's number, and where its characters start.
#[derive(Drop)]
struct Cursor {
    word: usize,
    at: usize,
}

// The first word from `from` on that does not start with a character below `value`, and whether it is `value` alone: no other word can be.
// Both are wanted on every path, so no `Option`.
fn seek(dictionary: &Dictionary, from: Cursor, value: usize) -> (Cursor, bool)
    requires { Passed dictionary.now.chars.now dictionary.now.lengths.now from.word from.at value }
    ensures { Passed dictionary.now.chars.now dictionary.now.lengths.now result.0.word result.0.at value ×
        (result.1 ≡ is_word (lexicon dictionary.now.chars.now dictionary.now.lengths.now) (value ∷ [])) }
{
    let Dictionary { chars, lengths } = *dictionary;
    let mut at = from.at;
    for word in from.word..lengths.len() {
        let first = chars[at] as usize;
        if value < first {
            return (Cursor { word, at }, false);
        }
        if value == first {
            return (Cursor { word, at }, lengths[word] == 1);
        }
        at += lengths[word] as usize;
    }
    let word = lengths.len();
    (Cursor { word, at }, false)
}

// Whether the lines from `from` on are good, where only lone characters may follow; the positions of the first start at `start`. Inlined,
// its loop over a list would cross a boundary of 64 bytes, and take longer.
#[inline(never)]
fn lone_lines<F: ListForm>(
    dictionary: &Dictionary,
    index: &[Number],
    from: usize,
    start: usize,
) -> bool
    requires { (header + 3 * keys_of index.now ≤ length index.now) ×
        LinesRead (read_as F.as_gaps) (lexicon dictionary.now.chars.now dictionary.now.lengths.now) index.now from start 65536 }
    ensures { result ≡ walk_good (read_as F.as_gaps) (lexicon dictionary.now.chars.now dictionary.now.lengths.now) index.now }
{
    let n = text_len(index);
    let keys = key_count(index);
    let mut at = start;
    let mut least = 0;
    let mut words = Cursor { word: 0, at: 0 };
    for i in from..keys {
        let line = next_line(index, i, at);
        let value = line.value;
        let to = line.to;
        if line.kind != 1 {
            return false;
        }
        if value < least {
            return false;
        }
        if GREATEST_CHAR < value {
            return false;
        }
        let (next, is_word) = seek(dictionary, words, value);
        if is_word {
            return false;
        }
        words = next;
        if !line_list_good::<F>(index, line, n, 1) {
            return false;
        }
        at = to;
        least = value + 1;
    }
    at == index.len()
}

// Whether all lines are good, and their positions are all that follows the directory. The walks are no `Lines`: that the lengths fit is
// what they test.
pub(crate) fn lines_good<F: ListForm>(dictionary: &Dictionary, index: &[Number]) -> bool
    requires { (header ≤ length index.now) ×
        (header + 3 * keys_of index.now ≤ length index.now) }
    ensures { result ≡ walk_good (read_as F.as_gaps) (lexicon dictionary.now.chars.now dictionary.now.lengths.now) index.now }
{
    let n = text_len(index);
    let keys = key_count(index);
    let mut at = line_start(keys);
    let mut least = 0;
    for i in 0..keys {
        let line = next_line(index, i, at);
        if line.kind != 0 {
            return lone_lines::<F>(dictionary, index, i, at);
        }
        let value = line.value;
        let to = line.to;
        if !word_line_good::<F>(dictionary, index, line, n, least) {
            return false;
        }
        at = to;
        least = value + 1;
    }
    at == index.len()
}
