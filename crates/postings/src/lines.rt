// The shorter of two position lists, by their lengths. The list itself is handed back, not a copy.
ghost use Rattle.std.specs.Prelude.{◌≡◌, length};
ghost use Rattle.spec.specs.Tally.{shorter};

use width::Number;

// The shorter of two position lists, itself; the first on a tie.
pub(crate) fn shorter<'a>(a: &'a [Number], b: &'a [Number]) -> &'a [Number]
    ensures itself { result ≡ shorter (length a.now) (length b.now) a.entry b.entry }
    ensures content { result.now ≡ shorter (length a.now) (length b.now) a.now b.now }
{
    if b.len() < a.len() { b } else { a }
}
