// Two tables of starts, prefix sums filled by one walk each: they give any word's characters and any line's positions in constant time.
//
// A word's characters start where the lengths before it add up to, a line's positions where the counts before it do. The table of words has
// one entry more, the end of the last word, so that it gives lengths as well.
ghost use Rattle.std.specs.Prelude.{◌≡◌, ◌≤◌, ◌<◌, length};
ghost use Rattle.basics.specs.Writing.{over};
ghost use Rattle.spec.specs.Dictionary.{total};
ghost use Rattle.spec.specs.Index.{greatest_number, keys_of};
ghost use Rattle.models.specs.WordStarts.{starts_from};
ghost use Rattle.laws.specs.Numbers.Slices.{Fits};
ghost use Rattle.laws.specs.Directory.Tables.{ListStarts};

use layout::lines::next_line;
use width::{Number, Sum, to_sum};

// Fills the table of where each word's characters start, and where the last ends.
pub fn fill_word_starts(lengths: &[u16], word_starts: &mut [u16])
    requires { (total lengths.now ≤ 65535) × (length lengths.now < length word_starts.old) }
    ensures { word_starts.new ≡ over (starts_from 0 lengths.now) word_starts.old }
{
    let mut at: usize = 0;
    for (i, len) in lengths.iter().enumerate() {
        word_starts[i] = at as u16;
        at += *len as usize;
    }
    word_starts[lengths.len()] = at as u16;
}

// Fills the table of where the positions of each of the `keys` lines start, counted from the end of the directory.
pub fn fill_list_starts(index: &[Number], keys: usize, list_starts: &mut [Sum])
    requires { Fits index.now × (keys ≡ keys_of index.now) × (keys ≤ greatest_number) × (keys ≤ length list_starts.old) }
    ensures { ListStarts index.now (keys_of index.now) list_starts.new }
{
    let mut at: usize = 0;
    // No `Lines`, which count from the start of the index.
    for i in 0..keys {
        let line = next_line(index, i, at);
        list_starts[i] = to_sum(line.from);
        at = line.to;
    }
}
