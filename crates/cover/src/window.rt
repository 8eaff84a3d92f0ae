// The greedy cover of a window of starts: the leading keys, then the offsets above 0.
//
// Entries are taken by ascending offset, so one pass is enough: whatever can extend the covered prefix up to an entry comes before it.
ghost use Rattle.std.specs.Prelude.{◌≡◌, ◌^◌, ◌≤◌};
ghost use Rattle.models.specs.Window.{leading_lines};
ghost use Rattle.laws.specs.Search.Sizing.{IsString};
ghost use Rattle.laws.specs.Window.LineRanges.{Split};
ghost use Rattle.laws.specs.Window.Window.{Within};
ghost use Rattle.laws.specs.Window.Extending.{WindowDone};
ghost use Rattle.dictionary.specs.Words.{lexicon_of};

use crate::extend::Window;
use crate::leading::extend_leading;
use crate::offsets::extend_offsets;
use directory::lines::Postings;
use width::Number;

// A string that an index is searched for: the index with its postings, how many of its lines are those of words, and which of these lines
// are the leading lines of the string.
#[derive(Clone, Copy)]
pub struct Query<'a> {
    pub postings: Postings<'a>,
    pub string: &'a [u16],
    pub word_lines: usize,
    pub leading: &'a [u16],
    ghost is_string: { IsString string.now },
    ghost split: { Split postings.directory.index.now word_lines },
    ghost listed: { leading.now ≡ leading_lines 0 (lexicon_of postings.directory.words) postings.directory.index.now string.now
        word_lines },
}

// Extends the window, whose first start is `first`, by every key at every offset. Answers the greatest reach afterwards.
pub fn extend_window(query: &Query, first: usize, reach: &mut [Number]) -> usize
    requires { (first ≤ 2 ^ 32) × Within 0 reach.old }
    ensures { WindowDone (lexicon_of query.now.postings.directory.words) query.now.postings.directory.index.now query.now.string.now
        first reach.old reach.new result }
{
    let mut window = Window {
        reach,
        first,
        highest: 0,
    };
    extend_leading(query, &mut window);
    extend_offsets(query, &mut window);
    window.highest
}
