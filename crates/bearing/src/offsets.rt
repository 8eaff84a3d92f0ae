// Keys that start within the string: the offsets from 0 up.
//
// At each offset the lines that agree are found by binary search over the sorted directory; of the keys only those of the last few lines of
// a range are compared with the string. Some of the lines go into a list that is lent for this.
ghost use Rattle.std.specs.Prelude.{◌≤◌, ◌<◌, length};
ghost use Rattle.spec.specs.Index.{keys_of};
ghost use Rattle.laws.specs.Search.Sizing.{IsString};
ghost use Rattle.laws.specs.Window.LineRanges.{Split};
ghost use Rattle.laws.specs.Cut.Flagging.{Flags, OffsetFlagged};
ghost use Rattle.laws.specs.Cut.FlagWalks.{Offsets};
ghost use Rattle.dictionary.specs.Words.{lexicon_of};

use crate::flags::{flag_list, flag_run};
use agreement::lone::lone_line;
use agreement::words::agreeing_words;
use directory::lines::Directory;

// A string, and the directory whose keys may bear on it. The first `word_lines` lines are those of words, and the others those of lone
// characters; an index may have none of either.
#[derive(Clone, Copy)]
pub(crate) struct Bearing<'a> {
    pub directory: Directory<'a>,
    pub string: &'a [u16],
    pub word_lines: usize,
    ghost is_string: { IsString string.now },
    ghost split: { Split directory.index.now word_lines },
}

impl<'a> Bearing<'a> {
    // Flags the lines of words whose keys agree with the string at the offset `key_start`.
    fn flag_words(&self, key_start: usize, lines: &mut [u16], flags: &mut [u8])
        requires inside { key_start < length self.now.string.now }
        requires room { 36 ≤ length lines.old }
        requires flags { Flags (lexicon_of self.now.directory.words) self.now.directory.index.now self.now.string.now flags.old }
        ensures { OffsetFlagged (lexicon_of self.now.directory.words) self.now.directory.index.now self.now.string.now
            key_start 0 self.now.word_lines flags.old flags.new }
    {
        if self.word_lines == 0 {
            return;
        }
        let agreeing = agreeing_words(
            &self.directory,
            self.string,
            key_start,
            self.word_lines,
            lines,
        );
        flag_list(&lines[..agreeing.count], flags);
        flag_run(agreeing.from, agreeing.to, flags);
    }

    // Flags the line of the lone character that agrees with the string at the offset `key_start`, if there is one.
    fn flag_lone(&self, key_start: usize, flags: &mut [u8])
        requires inside { key_start < length self.now.string.now }
        requires flags { Flags (lexicon_of self.now.directory.words) self.now.directory.index.now self.now.string.now flags.old }
        ensures { OffsetFlagged (lexicon_of self.now.directory.words) self.now.directory.index.now self.now.string.now
            key_start self.now.word_lines (keys_of self.now.directory.index.now) flags.old flags.new }
    {
        if let Some(line) = lone_line(
            self.directory.index,
            self.word_lines,
            self.string[key_start],
        ) {
            flags[line] = 1;
        }
    }

    // Flags the lines whose keys agree with the string at an offset from 0 to its length less 1.
    pub(crate) fn flag_offsets(&self, lines: &mut [u16], flags: &mut [u8])
        requires room { 36 ≤ length lines.old }
        requires flags { Flags (lexicon_of self.now.directory.words) self.now.directory.index.now self.now.string.now flags.old }
        ensures { Offsets (lexicon_of self.now.directory.words) self.now.directory.index.now self.now.string.now
            flags.old flags.new (length self.now.string.now) }
    {
        for key_start in 0..self.string.len() {
            self.flag_words(key_start, lines, flags);
            self.flag_lone(key_start, flags);
        }
    }
}
