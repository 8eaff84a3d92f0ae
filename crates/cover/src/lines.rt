// All keys at one offset from 0 up, where a key starts within the string: the words that agree, listed and as one range, and the lone
// character. That the other lines do not agree is a law: skipping them needs no table.
ghost use Rattle.std.specs.Prelude.{◌≡◌, ◌<◌, length, true};
ghost use Rattle.spec.specs.Index.{keys_of};
ghost use Rattle.models.specs.Window.{run, agrees_line};
ghost use Rattle.laws.specs.Window.Window.{Reaches};
ghost use Rattle.dictionary.specs.Words.{lexicon_of};
ghost use Rattle.cover.specs.Queries.{line_step};
ghost use Rattle.cover.specs.Windows.{IsWindow, SameStarts};

use crate::extend::Window;
use crate::placement::Placement;
use crate::window::Query;
use agreement::lone::lone_line;
use agreement::words::agreeing_words;

// Extends the window by one line whose word agrees at the offset `key_start`.
fn extend_line(query: &Query, line: usize, key_start: usize, window: &mut Window)
    requires below { line < query.now.word_lines }
    requires agrees { agrees_line key_start (lexicon_of query.now.postings.directory.words)
        query.now.postings.directory.index.now query.now.string.now line ≡ true }
    requires inside { key_start < length query.now.string.now }
    requires is_window { IsWindow window.old }
    ensures extended { Reaches (line_step query.now key_start window.old.first line window.old.reach.now)
        window.new.reach.now window.new.highest }
    ensures same { SameStarts window.old window.new }
{
    let word = query.postings.directory.word(line);
    let positions = query.postings.positions(line);
    let placement = Placement {
        len: word.len(),
        string_start: 0,
        key_start,
    };
    window.extend_at_positions(positions, placement);
}

// Extends the window by all lines of words at the offset `key_start`.
pub(crate) fn extend_words(query: &Query, key_start: usize, window: &mut Window)
    requires inside { key_start < length query.now.string.now }
    requires is_window { IsWindow window.old }
    ensures extended { Reaches (run (line_step query.now key_start window.old.first) 0 query.now.word_lines window.old.reach.now)
        window.new.reach.now window.new.highest }
    ensures same { SameStarts window.old window.new }
{
    let mut lines = [0u16; 36];
    let agreeing = agreeing_words(
        &query.postings.directory,
        query.string,
        key_start,
        query.word_lines,
        &mut lines,
    );
    for listed in &lines[..agreeing.count] {
        extend_line(query, *listed as usize, key_start, window);
    }
    for line in agreeing.from..agreeing.to {
        extend_line(query, line, key_start, window);
    }
}

// Extends the window by the lone character at the offset `key_start`, which has at most one line, after those of words.
pub(crate) fn extend_lone(query: &Query, key_start: usize, window: &mut Window)
    requires inside { key_start < length query.now.string.now }
    requires is_window { IsWindow window.old }
    ensures extended { Reaches (run (line_step query.now key_start window.old.first) query.now.word_lines
        (keys_of query.now.postings.directory.index.now) window.old.reach.now) window.new.reach.now window.new.highest }
    ensures same { SameStarts window.old window.new }
{
    let character = query.string[key_start];
    let Some(line) = lone_line(query.postings.directory.index, query.word_lines, character) else {
        return;
    };
    let positions = query.postings.positions(line);
    let placement = Placement {
        len: 1,
        string_start: 0,
        key_start,
    };
    window.extend_at_positions(positions, placement);
}
