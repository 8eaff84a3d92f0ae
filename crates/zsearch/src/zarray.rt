// The Z-array of a string, by the Z-algorithm: at i > 0, the length of the longest prefix that also starts at i.
//
// The cost is linear in the string, since each comparison but the last at an index moves the end of the Z-box.
ghost use Rattle.std.specs.Prelude.{◌≤◌, length};
ghost use Rattle.laws.specs.TextScan.ZSearch.{ZArray, KeptBut};

use crate::zbox::ZBox;

// Fills the Z-array. The first number, and those past the string's length, are left unchanged.
pub fn fill_zarray(string: &[u16], zarray: &mut [u16])
    requires { (length string.now ≤ 256) × (length string.now ≤ length zarray.old) }
    ensures { ZArray string.now zarray.new ×
        KeptBut 1 (length string.now) zarray.old zarray.new }
{
    let mut zbox = ZBox::default();
    for at in 1..string.len() {
        zarray[at] = zbox.longest_prefix(zarray, string, string, at, string.len() - at) as u16;
    }
}
