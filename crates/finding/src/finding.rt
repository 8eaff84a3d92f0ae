// The starts found in a window: those whose reach is at least the string's length.
//
// One pass counts them, without a branch on a reach, and one writes them once their number is known to fit.
ghost use Rattle.std.specs.Prelude.{◌≡◌, ◌+◌, ◌^◌, ◌≤◌, length, drop, unwrap_or, IfSome};
ghost use Rattle.spec.specs.Index.{greatest_number};
ghost use Rattle.spec.specs.Calls.{in_front};
ghost use Rattle.spec.specs.First.{first_of};
ghost use Rattle.models.specs.Window.{found_in, count_in};
ghost use Rattle.laws.specs.Window.Finding.{NextFound};

use width::Number;

// The first start whose reach is `len` or more, counted from `first`, where there is one.
pub fn first_found(reach: &[Number], len: usize, first: usize) -> Option<usize>
    requires { first + length reach.now ≤ 2 ^ 32 }
    ensures is { unwrap_or result 0 ≡ first_of (found_in len first reach.now) }
    ensures onward { IfSome result (λ p. first ≤ p) }
{
    let i = reach.iter().position(|reached| len <= *reached as usize)?;
    Some(first + i)
}

// How many starts have a reach of `len` or more.
pub(crate) fn count_found(reach: &[Number], len: usize) -> usize
    ensures { result ≡ count_in len reach.now }
{
    let mut total = 0;
    for reached in reach {
        total += usize::from(len <= *reached as usize);
    }
    total
}

// The first index from `from` on whose reach is `len` or more, where there is one.
fn next_found(reach: &[Number], len: usize, from: usize) -> usize
    requires { 1 ≤ count_in len (drop from reach.now) }
    ensures { NextFound len reach.now from result }
{
    let mut i = from;
    // A `while`: one is known to come, so no end is tested.
    while (reach[i] as usize) < len {
        i += 1;
    }
    i
}

// Writes the starts whose reach is `len` or more, of which there are `count`, to the start of the output.
pub(crate) fn write_found(
    reach: &[Number],
    len: usize,
    first: usize,
    count: usize,
    output: &mut [Number],
)
    requires { (count ≡ length (found_in len first reach.now)) × (count ≤ length output.old) ×
        (first + length reach.now ≤ greatest_number + 1) }
    ensures { output.new ≡ in_front (found_in len first reach.now) output.old }
{
    let mut i = 0;
    for written in 0..count {
        let here = next_found(reach, len, i);
        output[written] = (first + here) as Number;
        i = here + 1;
    }
}
