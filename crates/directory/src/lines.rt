// A directory with the words of its dictionary, and with the positions of its lines: a line's word and its positions are slices, found
// through the tables of starts in constant time.
ghost use Rattle.std.specs.Prelude.{◌≡◌, ◌<◌, true};
ghost use Rattle.spec.specs.Words.{spells};
ghost use Rattle.spec.specs.Dictionary.{longest_text};
ghost use Rattle.spec.specs.Index.{keys_of, key_at, kind_at, readable};
ghost use Rattle.models.specs.Window.{positions_at};
ghost use Rattle.laws.specs.Numbers.Slices.{Fits};
ghost use Rattle.laws.specs.Directory.Tables.{ListStarts};
ghost use Rattle.dictionary.specs.Words.{lexicon_of};

use dictionary::words::Words;
use layout::fields::{count_at, key_count, line_start, value_at};
use width::{Number, Sum, from_sum};

// A readable index with the words of its dictionary.
#[derive(Clone, Copy)]
pub struct Directory<'a> {
    pub words: Words<'a>,
    pub index: &'a [Number],
    ghost is_readable: { readable longest_text (lexicon_of words) index.now ≡ true },
}

impl<'a> Directory<'a> {
    // The word of a line, which has one.
    pub fn word(&self, line: usize) -> &'a [u16]
        requires below { line < keys_of self.now.index.now }
        requires of_word { kind_at self.now.index.now line ≡ 0 }
        ensures { result.now ≡ spells (lexicon_of self.now.words) (key_at self.now.index.now line) }
    {
        self.words.word(value_at(self.index, line))
    }
}

// A directory with its table of list starts: where the positions of each line start, counted from the end of the directory.
#[derive(Clone, Copy)]
pub struct Postings<'a> {
    pub directory: Directory<'a>,
    pub list_starts: &'a [Sum],
    ghost filled: { ListStarts directory.index.now (keys_of directory.index.now) list_starts.now },
}

impl<'a> Postings<'a> {
    // The positions of a line.
    pub fn positions(&self, line: usize) -> &'a [Number]
        requires { line < keys_of self.now.directory.index.now }
        ensures { result.now ≡ positions_at self.now.directory.index.now line }
    {
        positions_of(self.directory.index, self.list_starts, line)
    }
}

// The positions of a line of any index whose lengths fit, by a table of list starts.
pub fn positions_of<'a>(index: &'a [Number], list_starts: &[Sum], line: usize) -> &'a [Number]
    requires { Fits index.now × ListStarts index.now (keys_of index.now) list_starts.now × (line < keys_of index.now) }
    ensures { result.now ≡ positions_at index.now line }
{
    let start = line_start(key_count(index)) + from_sum(list_starts[line]);
    let end = start + count_at(index, line);
    &index[start..end]
}
