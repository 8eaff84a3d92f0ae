// A quick test that a word lacks a character: eight characters are compared without a branch.
//
// Nearly all words have at most eight characters, and their lengths differ, so that a loop over each costs a mispredicted branch rather
// than its comparisons. Behind a shorter word lie characters of other words. If one of them is the character, the word may still lack it,
// and the answer is no.
ghost use Rattle.std.specs.Prelude.{◌≡◌, true, ◌+◌, ◌≤◌, length};
ghost use Rattle.laws.specs.Text.Strings.{Lacks};

// How many characters are compared.
const BLOCK: usize = 8;

// Whether no character of the block at `at` is `character`.
fn block_lacks(chars: &[u16], at: usize, character: u16) -> bool
    requires { at + 8 ≤ length chars.now }
    ensures { result ≡ true → Lacks chars.now at 8 character }
{
    let mut lacks = true;
    for i in 0..BLOCK {
        lacks = lacks & (chars[at + i] != character);
    }
    lacks
}

// Whether the `count` characters from `at` on, if they are few, are seen to lack `character`.
pub(crate) fn seen_to_lack(chars: &[u16], at: usize, count: usize, character: u16) -> bool
    requires { at + count ≤ length chars.now }
    ensures { result ≡ true → Lacks chars.now at count character }
{
    if BLOCK < count {
        return false;
    }
    if chars.len() < at + BLOCK {
        return false;
    }
    block_lacks(chars, at, character)
}
