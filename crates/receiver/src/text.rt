// The text of a delivered index: reconstructed from its entries, and verified by the builder's scan; it has a full-width form exactly if a
// lone key is one.
//
// Of the work slice the first n numbers take the text and the next n the line map, 2n of the 8n that a caller lends. Whatever was
// reconstructed, `verify` accepts it exactly if the index is that of the text its entries spell, and then this is the text reconstructed.
// The cost is linear in the index and the text.
ghost use Rattle.std.specs.Prelude.{◌≡◌, true, ◌*◌, ◌≤◌, length, take, IfOk};
ghost use Rattle.spec.specs.Dictionary.{longest_text, lexicon};
ghost use Rattle.spec.specs.Index.{n_of, readable};
ghost use Rattle.spec.specs.Reception.{recovered};
ghost use Rattle.spec.specs.Calls.{reception_refusal};
ghost use Rattle.spec.specs.Refusals.{number_of};
ghost use Rattle.dictionary.specs.Words.{lexicon_of};
ghost use Rattle.laws.specs.Text.Facts.{Chars};
ghost use Rattle.laws.specs.Receive.ReceivedText.{ReadBack, Tried};

use crate::form_keys::has_form_key;
use directory::lines::Directory;
use layout::fields::text_len;
use matching::table::{MatchTable, match_table};
use opening::opened::open_index;
use reconstruction::entries::reconstruct_entries;
use reconstruction::line_map::fill_line_map;
use scanning::work::clear;
use spec::Refusal;
use verification::verify::verify;
use width::Number;

// Whether a readable index is that of the text its entries spell. Where it is, the text is left in the first numbers of the work slice.
fn is_index_of_text(table: &MatchTable, index: &[Number], work: &mut [Number]) -> bool
    requires can { readable longest_text (lexicon_of table.now.words) index.now ≡ true }
    requires room { 8 * n_of index.now ≤ length work.old }
    ensures { ReadBack longest_text (lexicon_of table.now.words) index.now result work.new }
{
    let n = text_len(index);
    let (text, rest) = work.split_at_mut(n);
    let line_map = &mut rest[..n];
    let words = table.words;
    let directory = Directory { words, index };
    clear(text);
    reconstruct_entries(&directory, text);
    clear(line_map);
    fill_line_map(index, line_map);
    verify(table, index, text, line_map)
}

// Whether a readable index is received: it is that of the text its entries spell, and no lone key is a full-width form. Where it is, the
// text is left in the first numbers of the work slice.
fn is_received(table: &MatchTable, index: &[Number], work: &mut [Number]) -> bool
    requires can { readable longest_text (lexicon_of table.now.words) index.now ≡ true }
    requires room { 8 * n_of index.now ≤ length work.old }
    ensures { Tried longest_text (lexicon_of table.now.words) index.now result work.new }
{
    is_index_of_text(table, index, work) && !has_form_key(index)
}

// Receives an index, with local tables of word starts and matches, and leaves its text in the first numbers of the work slice. Refusals
// 1, 2, 3, 12, 5, 7, 9; accepted, it answers the length of the text.
pub(crate) fn receive_text(
    chars: &[u16],
    lengths: &[u16],
    index: &[Number],
    work: &mut [Number],
) -> Result<usize, Refusal>
    ensures number { number_of result ≡ reception_refusal longest_text chars.now lengths.now index.now (length work.old) }
    ensures text { IfOk result (λ n. (n ≡ n_of index.now) × (n ≤ length work.new) × Chars (take n work.new) ×
        (take n work.new ≡ recovered (lexicon chars.now lengths.now) index.now)) }
{
    let opened = open_index(chars, lengths, index)?;
    let n = text_len(index);
    if work.len() < 8 * n {
        return Err(Refusal::WorkShort);
    }
    let mut word_starts = [0u16; 4097];
    let mut heads = [0u16; 10240];
    let mut links = [0u16; 4096];
    let table = match_table(opened.dictionary, &mut word_starts, &mut heads, &mut links);
    if !is_received(&table, index, work) {
        return Err(Refusal::NoText);
    }
    Ok(n)
}
