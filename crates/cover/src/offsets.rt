// The offsets above 0: keys that start within the string, by ascending offset.
//
// The greatest reach so far is carried along. Once it is below the next offset no entry can extend a start, and the work ends.
ghost use Rattle.std.specs.Prelude.{◌-◌, ◌<◌, length};
ghost use Rattle.spec.specs.Index.{lines_in};
ghost use Rattle.models.specs.Window.{offset_all, offsets_all};
ghost use Rattle.laws.specs.Window.Window.{Reaches};
ghost use Rattle.dictionary.specs.Words.{lexicon_of};
ghost use Rattle.cover.specs.Windows.{IsWindow, SameStarts};

use crate::extend::Window;
use crate::lines::{extend_lone, extend_words};
use crate::window::Query;

// Extends the window by every key at the offset `key_start`.
fn extend_offset(query: &Query, key_start: usize, window: &mut Window)
    requires inside { key_start < length query.now.string.now }
    requires is_window { IsWindow window.old }
    ensures extended { Reaches (offset_all key_start (lexicon_of query.now.postings.directory.words)
        (lines_in query.now.postings.directory.index.now) query.now.string.now window.old.first window.old.reach.now)
        window.new.reach.now window.new.highest }
    ensures same { SameStarts window.old window.new }
{
    extend_words(query, key_start, window);
    extend_lone(query, key_start, window);
}

// Extends the window at the offsets above 0 in ascending order, to the end of the string or to an offset that no start reaches.
pub(crate) fn extend_offsets(query: &Query, window: &mut Window)
    requires { IsWindow window.old }
    ensures extended { Reaches (offsets_all (length query.now.string.now - 1) 1 (lexicon_of query.now.postings.directory.words)
        (lines_in query.now.postings.directory.index.now) query.now.string.now window.old.first window.old.reach.now)
        window.new.reach.now window.new.highest }
    ensures same { SameStarts window.old window.new }
{
    for key_start in 1..query.string.len() {
        if window.highest < key_start {
            return;
        }
        extend_offset(query, key_start, window);
    }
}
