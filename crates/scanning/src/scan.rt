// The one-pass scan of a text: at each position the longest word or lone character is registered if it ends
// after the last registered entry.
//
// It leaves one token a position: 0 for nothing, a word's number plus 1, or 4,097 for the lone character. The cost is that of finding the
// longest word at each position.
ghost use Rattle.std.specs.Prelude.{◌≡◌, ◌+◌, ◌*◌, ◌≤◌, ◌<◌, length, take, drop};
ghost use Rattle.dictionary.specs.Words.{lexicon_of};
ghost use Rattle.laws.specs.Text.Facts.{Chars};
ghost use Rattle.laws.specs.Build.Tokens.{Tokens};
ghost use Rattle.laws.specs.Build.ScanTokens.{Stepped as SteppedAt};

use matching::longest::find_longest;
use matching::table::MatchTable;
use width::Number;

// The token of a position, a number since the work slice keeps it, and where the last registered entry ends after it.
#[derive(Clone, Copy)]
pub struct Stepped {
    pub token: usize,
    pub end: usize,
}

// The token at index `at`, where the last registered entry ends at `end`, and the new end.
pub fn step(table: &MatchTable, text: &[Number], at: usize, end: usize) -> Stepped
    requires { Chars text.now × (at < length text.now) × (end ≤ length text.now) }
    ensures stepped { SteppedAt (lexicon_of table.now.words) text.now (at + 1) (end + 1) result.token (result.end + 1) }
    ensures small { result.token ≤ 4097 }
{
    match find_longest(table, text, at, end) {
        Some(found) => Stepped {
            token: found.number + 1,
            end: at + found.len,
        },
        None if at < end => Stepped { token: 0, end },
        None => Stepped {
            token: 4097,
            end: at + 1,
        },
    }
}

// Writes the tokens of a text of `n` characters to the first `n` numbers of the work slice. The text is in the `n` numbers after them.
pub fn scan(table: &MatchTable, n: usize, work: &mut [Number])
    requires { Chars (take n (drop n work.old)) × (2 * n ≤ length work.old) }
    ensures tokens { Tokens (lexicon_of table.now.words) (take n (drop n work.old)) (take n work.new) }
    ensures rest { drop n work.new ≡ drop n work.old }
{
    let behind = 2 * n;
    let mut end = 0;
    for at in 0..n {
        let next = step(table, &work[n..behind], at, end);
        work[at] = next.token as Number;
        end = next.end;
    }
}
