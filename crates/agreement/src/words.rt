// The lines of words that agree with a string at an offset from 0 up.
//
// Words are sorted, so those that share the string's next characters are one range of lines. Each further character takes the equal range
// within the last one, by binary search. A word that ends on the way agrees, and where the string ends all words left do. Where at most
// four lines are left they are compared. Search, estimate and cut-down index each walk what is found here.
ghost use Rattle.std.specs.Prelude.{◌+◌, ◌≤◌, ◌<◌, length};
ghost use Rattle.laws.specs.Search.Sizing.{IsString};
ghost use Rattle.laws.specs.Window.LineRanges.{Split};
ghost use Rattle.laws.specs.Window.AgreeingLines.{AgreeingListed, AgreeingFound};
ghost use Rattle.laws.specs.Window.AgreeingWords.{Refining};
ghost use Rattle.dictionary.specs.Words.{lexicon_of};

use crate::offset::agrees_at;
use directory::lines::Directory;
use directory::ranges::equal_range;

// Lines of words that agree: the first `count` of a list, then the lines `from` to `to` - 1, whose words share `depth` characters with the
// string.
#[derive(Clone, Copy)]
pub struct Agreeing {
    pub count: usize,
    pub from: usize,
    pub to: usize,
    pub depth: usize,
}

// Refines the range of the first `word_lines` lines, which are those of words, until the string ends or at most four lines are left.
fn refine(
    directory: &Directory,
    string: &[u16],
    key_start: usize,
    word_lines: usize,
    lines: &mut [u16],
) -> Agreeing
    requires split { Split directory.now.index.now word_lines }
    requires is_string { IsString string.now }
    requires inside { key_start < length string.now }
    requires room { 36 ≤ length lines.old }
    ensures refining { Refining directory.now.words.chars.now directory.now.words.starts.now directory.now.index.now
        string.now key_start word_lines lines.new result.count result.from result.to result.depth }
    ensures few { key_start + result.depth < length string.now → result.to ≤ result.from + 4 }
{
    let left = string.len() - key_start;
    let mut count = 0;
    let mut low = 0;
    let mut high = word_lines;
    let mut depth = 0;
    // A `while`: the range narrows from either end by what is found, so no counted loop is plainer.
    while low + 4 < high && depth < left {
        if directory.word(low).len() == depth {
            lines[count] = low as u16;
            count += 1;
            low += 1;
        } else {
            let character = string[key_start + depth];
            let range = equal_range(
                directory.words.chars,
                directory.index,
                directory.words.starts,
                low,
                high,
                depth,
                character,
            );
            low = range.from;
            high = range.to;
            depth += 1;
        }
    }
    Agreeing {
        count,
        from: low,
        to: high,
        depth,
    }
}

// Compares the at most four lines that are left.
fn compare_few(
    directory: &Directory,
    string: &[u16],
    key_start: usize,
    word_lines: usize,
    refined: Agreeing,
    lines: &mut [u16],
) -> Agreeing
    requires refining { Refining directory.now.words.chars.now directory.now.words.starts.now directory.now.index.now
        string.now key_start word_lines lines.old refined.count refined.from refined.to refined.depth }
    requires few { refined.to ≤ refined.from + 4 }
    ensures listed { AgreeingListed key_start (lexicon_of directory.now.words) directory.now.index.now
        string.now word_lines lines.new result.count result.from result.to }
    ensures none_left { result.to ≤ result.from }
{
    let mut count = refined.count;
    for line in refined.from..refined.to {
        let word = directory.word(line);
        if agrees_at(word, string, key_start as i32) {
            lines[count] = line as u16;
            count += 1;
        }
    }
    Agreeing {
        count,
        from: refined.to,
        ..refined
    }
}

// The lines of words, the first `word_lines`, that agree with the string at the offset `key_start`; some of them go into `lines`.
pub fn agreeing_words(
    directory: &Directory,
    string: &[u16],
    key_start: usize,
    word_lines: usize,
    lines: &mut [u16],
) -> Agreeing
    requires split { Split directory.now.index.now word_lines }
    requires is_string { IsString string.now }
    requires inside { key_start < length string.now }
    requires room { 36 ≤ length lines.old }
    ensures { AgreeingFound key_start (lexicon_of directory.now.words) directory.now.index.now
        string.now word_lines lines.new result.count result.from result.to }
{
    let refined = refine(directory, string, key_start, word_lines, lines);
    if string.len() <= key_start + refined.depth {
        return refined;
    }
    compare_few(directory, string, key_start, word_lines, refined, lines)
}
