// The text of a build, replaced and scanned.
//
// The first n numbers of the work slice take the tokens, the next n the replaced text: 2n of the 8n that a caller lends.
ghost use Rattle.std.specs.Prelude.{◌*◌, ◌≤◌, length, take};
ghost use Rattle.spec.specs.Replaced.{replaced};
ghost use Rattle.dictionary.specs.Words.{lexicon_of};
ghost use Rattle.laws.specs.Build.Tokens.{Tokens};

use folding::forms::replace_as_numbers;
use matching::table::MatchTable;
use scanning::scan::scan;
use width::Number;

// Writes the tokens of the replaced text to the first numbers of the work slice.
pub(crate) fn scan_replaced(table: &MatchTable, text: &[u16], work: &mut [Number])
    requires { 2 * length text.now ≤ length work.old }
    ensures { Tokens (lexicon_of table.now.words) (replaced text.now) (take (length text.now) work.new) }
{
    let n = text.len();
    replace_as_numbers(text, &mut work[n..]);
    scan(table, n, work);
}
