// Whether a key agrees with a string at an offset.
//
// A signed offset becomes two natural starts, one of them 0. Whichever of the two strings begins first, the other begins at an index in it
// or after it, and the characters that both have are compared from the last one: callers come where the first are equal.
ghost use Rattle.std.specs.Prelude.{◌≡◌};
ghost use Rattle.spec.specs.Search.{agrees, agrees_at, string_start, key_start};

use copying::compare::same_run;

// Whether two strings agree, the first laid at 0 and the second at `at`.
fn agrees_after(first: &[u16], second: &[u16], at: usize) -> bool
    ensures { result ≡ agrees first.now 0 second.now at }
{
    if first.len() <= at {
        return false;
    }
    if second.is_empty() {
        return false;
    }
    let shared = second.len().min(first.len() - at);
    same_run(first, at, second, 0, shared)
}

// Where the string starts at an offset, counted from the first of string and key to begin.
fn string_start(offset: i32) -> usize
    ensures { result ≡ string_start offset }
{
    if offset < 0 {
        let back = -(offset + 1);
        back as usize + 1
    } else {
        0
    }
}

// Where the key starts at an offset, counted from the first of string and key to begin.
fn key_start(offset: i32) -> usize
    ensures { result ≡ key_start offset }
{
    if 0 < offset { offset as usize } else { 0 }
}

// Whether a key agrees with a string at an offset, which is below 0 where the key begins first.
pub fn agrees_at(key: &[u16], string: &[u16], offset: i32) -> bool
    ensures { result ≡ agrees_at key.now string.now offset }
{
    if 0 < offset {
        agrees_after(string, key, key_start(offset))
    } else {
        agrees_after(key, string, string_start(offset))
    }
}
