// One step of the Z-algorithm: the length of the longest prefix of a string that matches at one index of a text.
//
// The Z-box is the match that reaches furthest so far: the text from `left` to `right` is a prefix of the string. At an index inside it the
// text repeats the string's own characters, so the Z-array tells what matches up to the end of the box, and comparing goes on from there.
ghost use Rattle.std.specs.Prelude.{◌≡◌, ◌⊎◌, ℕ, ◌+◌, ◌-◌, ◌≤◌, ◌<◌, length, map, min, get_or};
ghost use Rattle.laws.specs.TextScan.ZSearch.{PrefixAt, LongestPrefixAt, Known, ZValue, ZBox as IsZBox};

use crate::symbol::Symbol;

// The length of the longest prefix of the string that matches at index `at`, at most `limit`, where the first `known` characters match.
fn extend<T: Symbol>(text: &[T], string: &[u16], at: usize, known: usize, limit: usize) -> usize
    requires { PrefixAt string.now (map T.value text.now) at known × (known ≤ limit) × (limit ≤ length string.now) ×
        (at + limit ≤ length text.now) }
    ensures { LongestPrefixAt string.now (map T.value text.now) at limit result }
{
    for len in known..limit {
        if text[at + len].number() != usize::from(string[len]) {
            return len;
        }
    }
    limit
}

// The match that reaches furthest: where it begins in the text, and where it ends. At first it is empty.
#[derive(Drop, Default)]
pub(crate) struct ZBox {
    left: usize,
    right: usize,
}

impl ZBox {
    // How many characters at index `at` are known to match.
    fn known_at(&self, zarray: &[u16], at: usize) -> usize
        requires { at < self.now.right → (self.now.left ≤ at) × (at - self.now.left < length zarray.now) }
        ensures { Known zarray.now at self.now.left self.now.right result }
    {
        if self.right <= at {
            return 0;
        }
        usize::from(zarray[at - self.left]).min(self.right - at)
    }

    // The length of the longest prefix of the string that matches at index `at`. It is the new Z-box if it reaches further. `limit` is how
    // many characters of the string fit there, and the Z-array is told at the indexes of the string that `at` can lie at in the Z-box.
    pub(crate) fn longest_prefix<T: Symbol>(
        &mut self,
        zarray: &[u16],
        text: &[T],
        string: &[u16],
        at: usize,
        limit: usize,
    ) -> usize
        requires zbox { (first : ℕ) × (first ≤ at) ×
            IsZBox first string.now (map T.value text.now) at self.old.left self.old.right ×
            ((j : ℕ) → j + first ≤ at → j < length string.now → ZValue string.now j (get_or zarray.now j 0)) }
        requires fits { (at ≤ length text.now) × (limit ≡ min (length string.now) (length text.now - at)) ×
            (length string.now ≤ length zarray.now) }
        ensures longest { LongestPrefixAt string.now (map T.value text.now) at limit result }
        ensures zbox { (self.new ≡ self.old) ⊎ ((self.new.left ≡ at) × (self.new.right ≡ at + result)) }
    {
        let known = self.known_at(zarray, at);
        let len = extend(text, string, at, known, limit);
        if self.right < at + len {
            self.left = at;
            self.right = at + len;
        }
        len
    }
}
