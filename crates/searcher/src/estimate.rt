// Estimates the cost of a search: whether it would visit so many positions that a scan of the reconstructed text is cheaper.
//
// At each offset the search by entries visits the positions of the keys that agree with the string there. A leading word's positions
// are visited again for each offset at which it agrees: at most as often as it has characters. At most 32 offsets are sampled, each
// for as many as lie up to the next. Reconstruction of the text is taken to cost six visits a character. The estimate only says which
// way is taken: both find the same. So nothing is promised of a sum but that it is small enough not to wrap: a count is at most 2³², a word
// has at most 32 characters, and no more is added once the limit is passed.
ghost use Rattle.std.specs.Prelude.{◌≡◌, true, ◌*◌, ◌+◌, ◌^◌, ◌≤◌, ◌<◌, length};
ghost use Rattle.laws.specs.Search.Sizing.{IsString};
ghost use Rattle.laws.specs.Window.LineRanges.{Split};

use crate::starts::Starts;
use agreement::lone::lone_line;
use agreement::words::agreeing_words;
use directory::lines::Directory;
use directory::ranges::count_word_lines;
use layout::fields::{count_at, text_len};

// A search that is estimated: the string, and the directory, whose first `word_lines` lines are those of words.
#[derive(Clone, Copy)]
struct Estimate<'a> {
    directory: Directory<'a>,
    string: &'a [u16],
    word_lines: usize,
    ghost is_string: { IsString string.now },
    ghost split: { Split directory.index.now word_lines },
}

impl<'a> Estimate<'a> {
    // How many visits the word of a line costs: one for each position, times the word's length if `whole`.
    fn visits_of_line(&self, line: usize, whole: bool) -> usize
        requires { line < self.now.word_lines }
        ensures { result ≤ 32 * 2 ^ 32 }
    {
        let count = count_at(self.directory.index, line);
        if whole {
            return count * self.directory.word(line).len();
        }
        count
    }

    // How many visits the words cost that agree with the string at the offset `key_start`: one for each position, times the word's length
    // if `whole`. Lines are counted up only until the sum is above `limit`.
    fn visits_of_words(&self, key_start: usize, whole: bool, limit: usize) -> usize
        requires { (key_start < length self.now.string.now) × (limit ≤ 2 ^ 32) }
        ensures { result ≤ limit + 32 * 2 ^ 32 }
    {
        let mut lines = [0u16; 36];
        let agreeing = agreeing_words(
            &self.directory,
            self.string,
            key_start,
            self.word_lines,
            &mut lines,
        );
        let mut sum = 0;
        for listed in &lines[..agreeing.count] {
            if limit < sum {
                return sum;
            }
            sum += self.visits_of_line(usize::from(*listed), whole);
        }
        for line in agreeing.from..agreeing.to {
            if limit < sum {
                return sum;
            }
            sum += self.visits_of_line(line, whole);
        }
        sum
    }

    // How many positions the keys have that agree with the string at the offset `key_start`, counted up only until they are more than
    // `limit`.
    fn visits_of_keys(&self, key_start: usize, limit: usize) -> usize
        requires { (key_start < length self.now.string.now) × (limit ≤ 2 ^ 32) }
        ensures { result ≤ limit + 33 * 2 ^ 32 }
    {
        let index = self.directory.index;
        let words = self.visits_of_words(key_start, false, limit);
        match lone_line(index, self.word_lines, self.string[key_start]) {
            Some(line) => words + count_at(index, line),
            None => words,
        }
    }

    // Whether a search is estimated to visit more than `limit` positions, by sampled offsets.
    fn exceeds(&self, limit: usize) -> bool
        requires { limit ≤ 2 ^ 32 }
    {
        let stride = 1 + self.string.len() / 32;
        let mut sum = self.visits_of_words(0, true, limit);
        for at in (0..self.string.len()).step_by(stride) {
            if limit < sum {
                return true;
            }
            sum += stride * self.visits_of_keys(at, limit);
        }
        limit < sum
    }
}

// Whether a search of all starts is estimated to visit more positions than reconstructing the text costs. Where the string does not fit
// into the text there is nothing to search.
pub(crate) fn prefers_text_scan(starts: &Starts) -> bool
    ensures { result ≡ true → 1 ≤ starts.now.count }
{
    if starts.count == 0 {
        return false;
    }
    let directory = starts.postings.directory;
    let estimate = Estimate {
        directory,
        string: starts.string,
        word_lines: count_word_lines(directory.index),
    };
    estimate.exceeds(6 * text_len(directory.index))
}
