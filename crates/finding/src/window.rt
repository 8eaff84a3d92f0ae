// Searches a window of starts by the entries: the greedy cover extends each start's reach, and the starts found are written
// once their number is known to fit.
ghost use Rattle.std.specs.Prelude.{◌≡◌, ◌+◌, ◌^◌, ◌≤◌, length, replicate};
ghost use Rattle.spec.specs.Index.{greatest_number};
ghost use Rattle.spec.specs.Refusals.{answer_of};
ghost use Rattle.models.specs.Window.{found_in};
ghost use Rattle.laws.specs.Search.Sizing.{IsString, Sized};
ghost use Rattle.laws.specs.Window.Searching.{WindowSays};
ghost use Rattle.dictionary.specs.Words.{lexicon_of};
ghost use Rattle.finding.specs.First.{FirstFound};

use crate::finding::{count_found, first_found, write_found};
use agreement::leading::list_leading;
use cover::window::{Query, extend_window};
use directory::lines::Postings;
use spec::Refusal;
use width::Number;

// Writes the starts whose reach is `len` or more, counted from `first`, and answers how many they are, or 8.
pub fn answer_window(
    reach: &[Number],
    len: usize,
    first: usize,
    output: &mut [Number],
) -> Result<usize, Refusal>
    requires { first + length reach.now ≤ greatest_number + 1 }
    ensures { Sized (found_in len first reach.now) (answer_of result) output.old output.new }
{
    let count = count_found(reach, len);
    if output.len() < count {
        return Err(Refusal::OutputShort);
    }
    write_found(reach, len, first, count, output);
    Ok(count)
}

// Searches the starts of a cleared window: writes those found, and answers how many they are, or 8.
pub fn search_window(
    postings: &Postings,
    string: &[u16],
    first: usize,
    reach: &mut [Number],
    output: &mut [Number],
) -> Result<usize, Refusal>
    requires is_string { IsString string.now }
    requires fits { first + length reach.old ≤ greatest_number + 1 }
    requires cleared { reach.old ≡ replicate (length reach.old) 0 }
    ensures { WindowSays (lexicon_of postings.now.directory.words) postings.now.directory.index.now string.now
        (length reach.old) first (answer_of result) output.old output.new }
{
    let mut lines = [0u16; 4096];
    let leading = list_leading(&postings.directory, string, 0, &mut lines);
    let query = Query {
        postings: *postings,
        string,
        word_lines: leading.words,
        leading: &lines[..leading.count],
    };
    if extend_window(&query, first, reach) < string.len() {
        return Ok(0);
    }
    answer_window(reach, string.len(), first, output)
}

// The first start found in a cleared window, where there is one.
pub fn first_in_window(query: &Query, first: usize, reach: &mut [Number]) -> Option<usize>
    requires fits { first + length reach.old ≤ 2 ^ 32 }
    requires cleared { reach.old ≡ replicate (length reach.old) 0 }
    ensures { FirstFound (lexicon_of query.now.postings.directory.words) query.now.postings.directory.index.now query.now.string.now
        (length reach.old) first result }
{
    if extend_window(query, first, reach) < query.string.len() {
        return None;
    }
    first_found(reach, query.string.len(), first)
}
