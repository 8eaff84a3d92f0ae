// The last of the first k words that stands at a position, by prefix ranges.
//
// Words are sorted, so those that share d characters with the text are neighbours, and binary search finds the equal range of those that
// share the next one. The cost is bounded by the longest word times the logarithm of k, however many words begin alike. Where the first
// and the last word of a range have the text's character, as nearly always after the first few, so have all, and nothing is searched.
ghost use Rattle.std.specs.Prelude.{◌≡◌, ◌+◌, ◌≤◌, ◌<◌, length, get_or};
ghost use Rattle.basics.specs.LowerBound.{LowerBound};
ghost use Rattle.spec.specs.Index.{greatest_number};
ghost use Rattle.models.specs.WordStarts.{lengths_of};
ghost use Rattle.dictionary.specs.Words.{lexicon_of};
ghost use Rattle.laws.specs.Match.PrefixRanges.{LastStanding};
ghost use Rattle.laws.specs.Match.Columns.{Column as IsColumn, column};
ghost use Rattle.matching.specs.Answers.{plus_one};

use bisect::{Column, lower_bound_after_ends};
use dictionary::words::Words;
use width::{Number, number_at};

// The characters at a depth of the words.
#[derive(Drop)]
struct CharColumn<'a> {
    words: Words<'a>,
    depth: usize,
}

impl<'a> Column for CharColumn<'a> {
    ghost can = { λ s word. (word < length s.words.starts.now) × (get_or s.words.starts.now word 0 + s.depth < length s.words.chars.now) };

    ghost value = { λ s. column s.words.chars.now s.words.starts.now s.depth };

    fn at(&self, word: usize) -> usize {
        let start = self.words.starts[word] as usize;
        self.words.chars[start + self.depth] as usize
    }
}

// The range of those of the words `low` to `high` - 1 whose character at `depth` is `c`: the first, and the first after them. Not inlined,
// since its caller seldom needs it, and then has registers for the loop that it needs at each position.
#[inline(never)]
fn char_range(words: &Words, depth: usize, low: usize, high: usize, c: usize) -> (usize, usize)
    requires letters { IsColumn words.now.chars.now words.now.starts.now low high depth }
    requires character { c ≤ greatest_number }
    ensures { LowerBound (column words.now.chars.now words.now.starts.now depth) low high c result.0 ×
        LowerBound (column words.now.chars.now words.now.starts.now depth) result.0 high (c + 1) result.1 }
{
    let letters = CharColumn {
        words: *words,
        depth,
    };
    let first = lower_bound_after_ends(&letters, low, high, c);
    (first, lower_bound_after_ends(&letters, first, high, c + 1))
}

// The number of the last of the first `count` words that stands in the text at index `at`, if one does. Inlined into the scan its loop
// would have too few registers.
#[inline(never)]
pub(crate) fn find_last_standing(
    words: &Words,
    text: &[Number],
    at: usize,
    count: usize,
) -> Option<usize>
    requires { (at < length text.now) × (count ≤ length (lengths_of words.now.starts.now)) }
    ensures { LastStanding (lexicon_of words.now).words text.now (at + 1) count (plus_one result) }
{
    // Copied, so that the loop does not read the record's references again at each turn.
    let copied = *words;
    let rest = &text[at..];
    let mut best = None;
    let mut low = 0;
    let mut high = count;
    let mut depth = 0;
    // A `while`: the range shrinks from both ends, by searches.
    while low < high {
        if copied.word_len(low) == depth {
            best = Some(low);
            low += 1;
        } else {
            if rest.len() <= depth {
                return best;
            }
            let c = number_at(rest, depth);
            let column = CharColumn {
                words: copied,
                depth,
            };
            // A turn of its own, so that it is compiled to a loop of its own, which reads the word's start and end once.
            if column.at(low) == c && column.at(high - 1) == c {
                depth += 1;
                continue;
            }
            (low, high) = char_range(words, depth, low, high, c);
            depth += 1;
        }
    }
    best
}
