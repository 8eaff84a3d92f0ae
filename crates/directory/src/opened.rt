// The directory of an opened index, and its postings, with the tables of starts that they go by. The tables are the same for every string:
// a caller that searches for many fills them once.
ghost use Rattle.std.specs.Prelude.{◌≡◌, ◌≤◌, length};
ghost use Rattle.spec.specs.Dictionary.{lexicon};
ghost use Rattle.spec.specs.Index.{keys_of};
ghost use Rattle.dictionary.specs.Words.{lexicon_of};

use crate::lines::{Directory, Postings};
use crate::tables::{fill_list_starts, fill_word_starts};
use dictionary::words::Words;
use layout::fields::key_count;
use opening::opened::Opened;
use width::Sum;

// The directory of an opened index, with the table of word starts that is filled in the array lent for it.
pub fn directory_of<'a>(opened: Opened<'a>, word_starts: &'a mut [u16; 4097]) -> Directory<'a>
    ensures { (lexicon_of result.words ≡ lexicon opened.entry.dictionary.chars.now opened.entry.dictionary.lengths.now) ×
        (result.index ≡ opened.entry.numbers) }
{
    let dictionary = opened.dictionary;
    fill_word_starts(dictionary.lengths, word_starts);
    let words = Words {
        chars: dictionary.chars,
        starts: &word_starts[..dictionary.lengths.len() + 1],
    };
    Directory {
        words,
        index: opened.numbers,
    }
}

// A directory with the table of list starts that is filled in the slice lent for it.
pub fn postings_of<'a>(directory: Directory<'a>, list_starts: &'a mut [Sum]) -> Postings<'a>
    requires { keys_of directory.index.now ≤ length list_starts.old }
    ensures { result.directory ≡ directory.entry }
{
    let index = directory.index;
    fill_list_starts(index, key_count(index), list_starts);
    Postings {
        directory,
        list_starts,
    }
}
