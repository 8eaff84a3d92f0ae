// The leading keys: keys at an offset of 0 or below, which start where the string starts or before it.
//
// Of the lines of words only the leading lines of the string are walked, as no other agrees at such an offset. A word is tried at each of
// its indices that has the string's first character. A lone character is tried at the offset 0 alone.
ghost use Rattle.std.specs.Prelude.{◌<◌};
ghost use Rattle.spec.specs.Index.{lines_in};
ghost use Rattle.models.specs.Window.{leading_all};
ghost use Rattle.laws.specs.Window.Window.{Reaches};
ghost use Rattle.dictionary.specs.Words.{lexicon_of};
ghost use Rattle.cover.specs.Queries.{leading_step};
ghost use Rattle.cover.specs.Windows.{IsWindow, SameStarts};

use crate::extend::Window;
use crate::lines::extend_lone;
use crate::window::Query;

// Extends the window by one line of a word, at each of its offsets of 0 and below.
fn extend_back(query: &Query, line: usize, window: &mut Window)
    requires below { line < query.now.word_lines }
    requires is_window { IsWindow window.old }
    ensures extended { Reaches (leading_step query.now window.old.first line window.old.reach.now)
        window.new.reach.now window.new.highest }
    ensures same { SameStarts window.old window.new }
{
    let key = query.postings.directory.word(line);
    let positions = query.postings.positions(line);
    for (at, character) in key.iter().enumerate() {
        if *character == query.string[0] {
            window.extend_key(key, query.string, positions, at);
        }
    }
}

// Extends the window by all leading keys: by the leading lines, then by the lone character at the offset 0.
pub(crate) fn extend_leading(query: &Query, window: &mut Window)
    requires { IsWindow window.old }
    ensures extended { Reaches (leading_all (lexicon_of query.now.postings.directory.words)
        (lines_in query.now.postings.directory.index.now) query.now.string.now window.old.first window.old.reach.now)
        window.new.reach.now window.new.highest }
    ensures same { SameStarts window.old window.new }
{
    for line in query.leading {
        extend_back(query, *line as usize, window);
    }
    extend_lone(query, 0, window);
}
