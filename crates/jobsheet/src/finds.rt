// The lines of the finds: each string is searched for in the opened index, and its positions are printed. All finds share the tables of
// starts, which are filled once.
ghost use Rattle.std.specs.Prelude.{◌+◌, ◌≤◌, length};
ghost use Rattle.basics.specs.Placed.{Wrote};
ghost use Rattle.spec.specs.Replaced.{replaced};
ghost use Rattle.spec.specs.Dictionary.{words_from};
ghost use Rattle.spec.specs.Index.{n_of};
ghost use Rattle.spec.specs.Search.{find};
ghost use Rattle.spec.specs.JobAnswer.{found_line, found_lines};
ghost use Rattle.laws.specs.Search.Sizing.{IsString};
ghost use Rattle.laws.specs.JobSheet.JobAnswering.{StringsGood};
ghost use Rattle.dictionary.specs.Words.{lexicon_of};

use directory::lines::Postings;
use printer::print::put_found_line;
use searcher::search::search_tabled;
use width::Number;

// Writes the line of one find. The search is accepted: as many positions as the text has characters fit.
fn put_find(
    postings: &Postings,
    string: &[u16],
    found: &mut [Number],
    out: &mut [u8],
    at: usize,
) -> usize
    requires is_string { IsString string.now }
    requires positions_fit { n_of postings.now.directory.index.now ≤ length found.old }
    requires line_fits { at + length (found_line (find (lexicon_of postings.now.directory.words) postings.now.directory.index.now
        (replaced string.now))) ≤ length out.old }
    ensures { Wrote (found_line (find (lexicon_of postings.now.directory.words) postings.now.directory.index.now
        (replaced string.now))) at out.old result out.new }
{
    let count = search_tabled(postings, string, found).unwrap();
    put_found_line(out, at, &found[..count])
}

// Writes the lines of all finds. Their strings are run together, and `counts` says how many characters each has.
pub(crate) fn put_finds(
    postings: &Postings,
    strings: &[u16],
    counts: &[u16],
    found: &mut [Number],
    out: &mut [u8],
    at: usize,
) -> usize
    requires strings_good { StringsGood strings.now counts.now }
    requires positions_fit { n_of postings.now.directory.index.now ≤ length found.old }
    requires lines_fit { at + length (found_lines (lexicon_of postings.now.directory.words) postings.now.directory.index.now
        (words_from counts.now strings.now)) ≤ length out.old }
    ensures { Wrote (found_lines (lexicon_of postings.now.directory.words) postings.now.directory.index.now
        (words_from counts.now strings.now)) at out.old result out.new }
{
    let mut end = at;
    let mut from = 0;
    for count in counts {
        let next = from + *count as usize;
        end = put_find(postings, &strings[from..next], found, out, end);
        from = next;
    }
    end
}
