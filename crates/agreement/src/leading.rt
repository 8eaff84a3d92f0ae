// The lines of words whose keys agree with the string at an offset of 0 or below: the leading lines.
//
// The list of them does not depend on the window, so a search of several windows for one string makes it once. A word is compared with the
// string only at its indices that have the string's first character, and most words are passed over at once because they lack it. The
// cut-down index asks only for offsets below 0. A key's length is held in 8 bits, so that a compiler knows that an offset is not above 0.
ghost use Rattle.std.specs.Prelude.{◌≡◌, ◌≤◌, ◌<◌, length, take};
ghost use Rattle.basics.specs.Placed.{Wrote};
ghost use Rattle.models.specs.Window.{agrees_leading, is_leading, leading_lines};
ghost use Rattle.spec.specs.Index.{keys_of, kind_at};
ghost use Rattle.laws.specs.Window.LineRanges.{Split};
ghost use Rattle.dictionary.specs.Words.{lexicon_of};

use crate::blocks::seen_to_lack;
use crate::offset::agrees_at;
use directory::lines::Directory;
use directory::ranges::count_word_lines;
use layout::fields::value_at;

// Whether a key agrees with the string at an offset of -`least` or below.
fn agrees_leading(key: &[u16], string: &[u16], least: usize) -> bool
    requires { (length key.now ≤ 32) × (1 ≤ length string.now) }
    ensures { result ≡ agrees_leading least string.now key.now }
{
    let character = string[0];
    let len = key.len() as u8;
    for at in least..len as usize {
        if key[at] == character && agrees_at(key, string, -(at as i32)) {
            return true;
        }
    }
    false
}

// Whether the word of a line agrees with the string at an offset of -`least` or below: of 0 or below, or below 0.
fn line_leads(directory: &Directory, string: &[u16], line: usize, least: usize) -> bool
    requires { (line < keys_of directory.now.index.now) × (kind_at directory.now.index.now line ≡ 0) ×
        (1 ≤ length string.now) × (least ≤ 1) }
    ensures { result ≡ is_leading least (lexicon_of directory.now.words) directory.now.index.now
        string.now line }
{
    let words = directory.words;
    let start = words.starts[value_at(directory.index, line)] as usize;
    let word = directory.word(line);
    if seen_to_lack(words.chars, start + least, word.len() - least, string[0]) {
        return false;
    }
    agrees_leading(word, string, least)
}

// Lists those of the first `word_lines` lines whose keys agree at an offset of -`least` or below, from the start of `lines`. Answers how
// many.
fn fill_leading(
    directory: &Directory,
    string: &[u16],
    word_lines: usize,
    least: usize,
    lines: &mut [u16],
) -> usize
    requires { Split directory.now.index.now word_lines × (1 ≤ length string.now) × (word_lines ≤ length lines.old) ×
        (least ≤ 1) }
    ensures { Wrote (leading_lines least (lexicon_of directory.now.words) directory.now.index.now
        string.now word_lines) 0 lines.old result lines.new }
{
    let mut count = 0;
    for line in 0..word_lines {
        if line_leads(directory, string, line, least) {
            lines[count] = line as u16;
            count += 1;
        }
    }
    count
}

// How many lines are those of words, and how many of these are listed.
#[derive(Clone, Copy)]
pub struct Leading {
    pub words: usize,
    pub count: usize,
}

// Lists the lines whose words agree at an offset of -`least` or below, from the start of `lines`: all leading lines for 0, and for 1 those
// whose words start before the string. There is room: there are no more lines of words than words.
pub fn list_leading(
    directory: &Directory,
    string: &[u16],
    least: usize,
    lines: &mut [u16],
) -> Leading
    requires { (1 ≤ length string.now) × (4096 ≤ length lines.old) × (least ≤ 1) }
    ensures { Split directory.now.index.now result.words × (result.count ≤ length lines.new) ×
        (take result.count lines.new ≡ leading_lines least (lexicon_of directory.now.words)
        directory.now.index.now string.now result.words) }
{
    let words = count_word_lines(directory.index);
    let count = fill_leading(directory, string, words, least, lines);
    Leading { words, count }
}
