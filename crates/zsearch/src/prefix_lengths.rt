// Z-search: for each start of a text, the length of the longest prefix of a string that matches there.
//
// Each comparison but the last at a start moves the end of the Z-box, the match that reaches furthest into the text. So the cost is linear
// in the text whatever its characters are, also where string and text are one character over and over.
ghost use Rattle.std.specs.Prelude.{suc, ◌+◌, ◌≤◌, length};
ghost use Rattle.laws.specs.TextScan.ZSearch.{ZArray, PrefixLengths};

use crate::zbox::ZBox;
use width::Number;

// Fills `reach` with the length of the longest prefix of the string that matches at each start of the text, by the string's Z-array.
pub fn fill_prefix_lengths(text: &[Number], string: &[u16], zarray: &[u16], reach: &mut [Number])
    requires { ZArray string.now zarray.now × (length string.now ≤ 256) × (length string.now ≤ length zarray.now) ×
        (length reach.old + length string.now ≤ suc (length text.now)) }
    ensures { PrefixLengths string.now text.now reach.new }
{
    let mut zbox = ZBox::default();
    for at in 0..reach.len() {
        reach[at] = zbox.longest_prefix(zarray, text, string, at, string.len()) as Number;
    }
}
