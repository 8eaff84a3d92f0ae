// Readability of a delivered index, and the refusals 1, 2, 3, 12 and 5.
//
// One walk over the directory, with the list of each line as it is reached. A gap form is tested by the same walk, without restoring it:
// only a line's list is read differently.
ghost use Rattle.std.specs.Prelude.{◌≡◌, IfOk};
ghost use Rattle.spec.specs.Dictionary.{longest_text, lexicon};
ghost use Rattle.spec.specs.Index.{readable};
ghost use Rattle.spec.specs.Gaps.{with_lists};
ghost use Rattle.spec.specs.Calls.{index_refusal};
ghost use Rattle.spec.specs.Refusals.{number_of};
ghost use Rattle.models.specs.Readability.{read_as};

use crate::lines::lines_good;
use crate::lists::{ListForm, Positions};
use dictionary::admission::{Dictionary, admit};
use layout::fields::{HEADER, key_count, line_start, text_len};
use spec::Refusal;
use width::{LONGEST, Number};

// Whether an index is readable with an admitted dictionary, or, of a gap form, whether what it restores to is.
fn readable<F: ListForm>(dictionary: &Dictionary, index: &[Number]) -> bool
    ensures { result ≡ readable longest_text (lexicon dictionary.now.chars.now dictionary.now.lengths.now)
        (with_lists (read_as F.as_gaps) index.now) }
{
    if index.len() < HEADER {
        return false;
    }
    if text_len(index) > LONGEST {
        return false;
    }
    if index.len() < line_start(key_count(index)) {
        return false;
    }
    lines_good::<F>(dictionary, index)
}

// Admits the dictionary and tests the numbers, an index or a gap form, of which 5 asks whether what it restores to is readable: the refusal
// is the first line of 1, 2, 3, 12 and 5 that they meet.
pub fn admit_as<'a, F: ListForm>(
    chars: &'a [u16],
    lengths: &'a [u16],
    index: &[Number],
) -> Result<Dictionary<'a>, Refusal>
    ensures number { number_of result ≡ index_refusal longest_text chars.now lengths.now (with_lists (read_as F.as_gaps) index.now) }
    ensures lent { IfOk result (λ d. (d.chars ≡ chars.entry) × (d.lengths ≡ lengths.entry)) }
{
    let dictionary = admit(chars, lengths)?;
    if !readable::<F>(&dictionary, index) {
        return Err(Refusal::Unreadable);
    }
    Ok(dictionary)
}

// Admits the dictionary and tests the index: the refusal is the first line of 1, 2, 3, 12 and 5 that they meet.
pub fn admit_index<'a>(
    chars: &'a [u16],
    lengths: &'a [u16],
    index: &[Number],
) -> Result<Dictionary<'a>, Refusal>
    ensures number { number_of result ≡ index_refusal longest_text chars.now lengths.now index.now }
    ensures lent { IfOk result (λ d. (d.chars ≡ chars.entry) × (d.lengths ≡ lengths.entry)) }
{
    admit_as::<Positions>(chars, lengths, index)
}
