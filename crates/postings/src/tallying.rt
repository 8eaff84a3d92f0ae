// The tally of an index: its entries by word length. One walk over the directory adds each key's count to one of 32
// counts, which travel by value.
ghost use Rattle.std.specs.Prelude.{◌≡◌, true, ℕ, ◌^◌, ◌≤◌, length, get_or};
ghost use Rattle.spec.specs.Dictionary.{longest_text, lexicon};
ghost use Rattle.spec.specs.Words.{spells};
ghost use Rattle.spec.specs.Index.{readable};
ghost use Rattle.spec.specs.Tally.{tally};
ghost use Rattle.spec.specs.Calls.{TallySays};
ghost use Rattle.spec.specs.Refusals.{tally_answer_of};
ghost use Rattle.models.specs.Tally.{added};
ghost use Rattle.laws.specs.Text.Facts.{IsKey};
ghost use Rattle.layout.specs.Keys.{key_of};

use dictionary::admission::Dictionary;
use layout::keys::Key;
use layout::lines::Lines;
use opening::opened::open_index;
use spec::{Refusal, Tally};
use width::Number;

// How many characters a key spells: 1 to 32.
fn key_length(dictionary: &Dictionary, key: Key) -> usize
    requires { IsKey (lexicon dictionary.now.chars.now dictionary.now.lengths.now) (key_of key) }
    ensures { (result ≡ length (spells (lexicon dictionary.now.chars.now dictionary.now.lengths.now) (key_of key))) ×
        (1 ≤ result) × (result ≤ 32) }
{
    match key {
        Key::Word(number) => usize::from(dictionary.lengths[number]),
        Key::Lone(_) => 1,
    }
}

// The counts, with the number of positions of each key of a readable index added to the count for its length. Each is at most 2³²
// on entry, so that no sum wraps.
fn raised(dictionary: &Dictionary, index: &[Number], counts: [u64; 32]) -> [u64; 32]
    requires { (readable longest_text (lexicon dictionary.now.chars.now dictionary.now.lengths.now) index.now ≡ true) ×
        ((j : ℕ) → get_or counts j 0 ≤ 2 ^ 32) }
    ensures { result ≡ added counts (tally (lexicon dictionary.now.chars.now dictionary.now.lengths.now) index.now) }
{
    let mut counts = counts;
    for list in Lines::new(index) {
        let position = key_length(dictionary, list.key) - 1;
        counts[position] += list.positions.len() as u64;
    }
    counts
}

// The tally of an index: M and the 32 counts. Refusals 1, 2, 3, 12, 5.
pub fn tally(chars: &[u16], lengths: &[u16], index: &[Number]) -> Result<Tally, Refusal>
    ensures { TallySays longest_text chars.now lengths.now index.now (tally_answer_of result) }
{
    let opened = open_index(chars, lengths, index)?;
    let by_length = raised(&opened.dictionary, index, [0; 32]);
    Ok(Tally {
        count: index.len() - opened.first,
        by_length,
    })
}
