// Building a text's index: admission, match table, scan, inversion, writing.
//
// The word starts, the match table, the heads of the posting chains and the flags of their pages are local. Of the work slice 2n numbers
// are used for a text of n characters: n for its tokens, n for the replaced text. Counting keys and entries sizes the result before the
// output is touched.
ghost use Rattle.std.specs.Prelude.{◌≡◌, length};
ghost use Rattle.spec.specs.Replaced.{replaced};
ghost use Rattle.spec.specs.Dictionary.{longest_text};
ghost use Rattle.spec.specs.Calls.{BuildSays};
ghost use Rattle.spec.specs.Refusals.{answer_of};
ghost use Rattle.laws.specs.Build.PostingChains.{Linkable};
ghost use Rattle.laws.specs.Build.Building.{TokensSay, BuildPuts};

use crate::text::scan_replaced;
use dictionary::admission::admit;
use inversion::chains::chain_positions;
use inversion::write::write_index;
use layout::fields::{MOST_KEYS, line_start};
use matching::table::match_table;
use scanning::work::clear;
use spec::Refusal;
use width::{LONGEST, Number};

// Writes the index that the tokens stand for, with local heads and pages, or refuses an output too short for it. The links of the chains
// overwrite the tokens.
fn index_tokens(
    text: &[u16],
    output: &mut [Number],
    tokens: &mut [Number],
) -> Result<usize, Refusal>
    requires { Linkable (replaced text.now) tokens.old }
    ensures { TokensSay tokens.old (replaced text.now) (answer_of result) output.old output.new }
{
    let mut heads: [Number; MOST_KEYS] = [0; MOST_KEYS];
    let mut pages = [0u8; 1088];
    let counts = chain_positions(text, tokens, &mut heads, &mut pages);
    let size = line_start(counts.keys) + counts.entries;
    if output.len() < size {
        return Err(Refusal::OutputShort);
    }
    write_index(&heads, &pages, tokens, counts, output);
    Ok(size)
}

// Builds the index with local tables of word starts and matches: scans the replaced text into tokens in the first numbers of the work
// slice, and writes their index. The work slice is not cleared.
fn index_text(
    chars: &[u16],
    lengths: &[u16],
    text: &[u16],
    output: &mut [Number],
    work: &mut [Number],
) -> Result<usize, Refusal>
    ensures { BuildPuts longest_text chars.now lengths.now text.now (length work.old) (answer_of result)
        output.old output.new }
{
    let dictionary = admit(chars, lengths)?;
    if LONGEST < text.len() {
        return Err(Refusal::TextTooLong);
    }
    if work.len() < 8 * text.len() {
        return Err(Refusal::WorkShort);
    }
    let mut word_starts = [0u16; 4097];
    let mut heads = [0u16; 10240];
    let mut links = [0u16; 4096];
    let table = match_table(dictionary, &mut word_starts, &mut heads, &mut links);
    scan_replaced(&table, text, work);
    index_tokens(text, output, &mut work[..text.len()])
}

// Builds the index of a text, replaced first: refusals 1, 2, 3, 12, 4, 7, 8; accepted, it answers the count of numbers written. The work
// slice is cleared on every path.
pub fn build(
    chars: &[u16],
    lengths: &[u16],
    text: &[u16],
    output: &mut [Number],
    work: &mut [Number],
) -> Result<usize, Refusal>
    ensures { BuildSays longest_text chars.now lengths.now text.now (answer_of result) output.old output.new
        work.old work.new }
{
    let built = index_text(chars, lengths, text, output, work);
    clear(work);
    built
}
