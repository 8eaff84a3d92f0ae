// The line of a lone character.
//
// The lines of lone characters follow those of words, sorted by character, so a character has at most one, found by its lower bound.
ghost use Rattle.std.specs.Prelude.{◌<◌, IfSome, unwrap_or};
ghost use Rattle.spec.specs.Index.{keys_of};
ghost use Rattle.laws.specs.Numbers.Slices.{Fits};
ghost use Rattle.laws.specs.Window.LineRanges.{ValuesRise, LoneLine};

use directory::ranges::line_lower_bound;
use layout::fields::{key_count, value_at};
use width::Number;

// The line of the lone character, if it has one. The lines of lone characters follow the first `word_lines`.
pub fn lone_line(index: &[Number], word_lines: usize, character: u16) -> Option<usize>
    requires { Fits index.now × ValuesRise index.now word_lines }
    ensures line { LoneLine index.now word_lines character (unwrap_or result (keys_of index.now)) }
    ensures below { IfSome result (λ line. line < keys_of index.now) }
{
    let keys = key_count(index);
    let line = line_lower_bound(index, word_lines, keys, 1, character as usize);
    if line < keys && value_at(index, line) == character as usize {
        Some(line)
    } else {
        None
    }
}
