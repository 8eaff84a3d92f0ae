// An opened index: one record that refers to the lent numbers, with the bounds of the directory.
//
// It is made once, by the function that tests the index, so that each operation on an index relies on the facts that the record holds.
ghost use Rattle.std.specs.Prelude.{◌≡◌, true, ◌+◌, ◌*◌, IfOk};
ghost use Rattle.spec.specs.Dictionary.{longest_text, lexicon};
ghost use Rattle.spec.specs.Index.{header, keys_of, readable};
ghost use Rattle.spec.specs.Calls.{index_refusal};
ghost use Rattle.spec.specs.Refusals.{number_of};

use dictionary::admission::Dictionary;
use layout::fields::{key_count, line_start};
use readability::readability::admit_index;
use spec::Refusal;
use width::Number;

// A readable index with its dictionary: its numbers, how many lines its directory has, and where the positions start.
#[derive(Clone, Copy)]
pub struct Opened<'a> {
    pub dictionary: Dictionary<'a>,
    pub numbers: &'a [Number],
    pub keys: usize,
    pub first: usize,
    ghost can_read: { readable longest_text (lexicon dictionary.chars.now dictionary.lengths.now) numbers.now ≡ true },
    ghost has_keys: { keys ≡ keys_of numbers.now },
    ghost has_directory: { first ≡ header + 3 * keys },
}

// Opens an index: tests it, and answers the record that refers to its numbers. Refusals 1, 2, 3, 12, 5.
pub fn open_index<'a>(
    chars: &'a [u16],
    lengths: &'a [u16],
    index: &'a [Number],
) -> Result<Opened<'a>, Refusal>
    ensures number { number_of result ≡ index_refusal longest_text chars.now lengths.now index.now }
    ensures lent { IfOk result (λ o. (o.dictionary.chars ≡ chars.entry) × (o.dictionary.lengths ≡ lengths.entry) ×
        (o.numbers ≡ index.entry)) }
{
    let dictionary = admit_index(chars, lengths, index)?;
    let keys = key_count(index);
    Ok(Opened {
        dictionary,
        numbers: index,
        keys,
        first: line_start(keys),
    })
}
