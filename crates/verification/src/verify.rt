// Verification: whether the scan of a reconstructed text registers exactly the entries of an index.
//
// The builder's own step runs over the text. Where it registers an entry, the line that the line map has at that position must have the
// entry's key; and as many must be registered as the index has positions. Each registered entry then is one delivered entry, and there are
// no others: whatever reconstruction left uncovered, overwrote or missed fails by itself. The cost is that of the scan.
ghost use Rattle.std.specs.Prelude.{◌≡◌, ◌≤◌, length};
ghost use Rattle.spec.specs.Index.{keys_of};
ghost use Rattle.models.specs.Reception.{mapped_at, verify, token_mapped};
ghost use Rattle.laws.specs.Text.Facts.{Chars};
ghost use Rattle.laws.specs.Numbers.Slices.{Fits};
ghost use Rattle.laws.specs.Receive.LineMap.{LineMap};
ghost use Rattle.dictionary.specs.Words.{lexicon_of};

use layout::fields::{key_count, kind_at, line_start, value_at};
use matching::table::MatchTable;
use scanning::scan::step;
use width::{Number, number_at};

// Whether `mapped`, the line map's number at a position, is that of a line with the key of `token`; `character` is the text's there.
fn line_has_key(index: &[Number], mapped: usize, token: usize, character: usize) -> bool
    requires { Fits index.now × (mapped ≤ keys_of index.now) × (1 ≤ token) }
    ensures { result ≡ token_mapped index.now mapped token character }
{
    let Some(line) = mapped.checked_sub(1) else {
        return false;
    };
    // No `Key`, which takes any kind but 0 for a lone character.
    if token == 4097 {
        kind_at(index, line) == 1 && value_at(index, line) == character
    } else {
        kind_at(index, line) == 0 && value_at(index, line) == token - 1
    }
}

// Whether the line map has, for each entry that the scan of the text registers, a line with its key where it starts, and there are as
// many as positions in the index.
pub fn verify(table: &MatchTable, index: &[Number], text: &[Number], line_map: &[Number]) -> bool
    requires { Fits index.now × LineMap index.now (mapped_at line_map.now) × Chars text.now × (length text.now ≤ length line_map.now) }
    ensures { result ≡ verify (lexicon_of table.now.words) (mapped_at line_map.now) index.now text.now }
{
    let mut count = 0;
    let mut end = 0;
    for (at, character) in text.iter().enumerate() {
        let next = step(table, text, at, end);
        end = next.end;
        if next.token != 0 {
            if !line_has_key(
                index,
                number_at(line_map, at),
                next.token,
                *character as usize,
            ) {
                return false;
            }
            count += 1;
        }
    }
    line_start(key_count(index)) + count == index.len()
}
