// Whether the list of one directory line is good: the positions of an index, or the gaps of a gap form.
//
// How the numbers of a list are read is a type parameter, so that each of the two is compiled without a test for the other. A list is
// tested by one pass without a branch for each number. Sums of gaps are in a `Sum`, so that none wraps. Most lists have one number, which
// is tested without a loop.
ghost use Rattle.std.specs.Prelude.{◌≡◌, ◌-◌, ◌≤◌, Bool, true, false, length, drop};
ghost use Rattle.spec.specs.Index.{greatest_number, rise_from};
ghost use Rattle.models.specs.Readability.{floor_of, list_good, line_list_good, read_as};

use layout::lines::Line;
use width::{Number, Sum, from_sum, number_at};

// The form of a list: how its numbers are read as positions.
pub trait ListForm {
    ghost as_gaps: { Bool };

    // What a number has to exceed, after the number before it.
    fn floor_of(before: Number) -> Number
        ensures { result ≡ floor_of as_gaps before };

    // Whether the positions ascend strictly from 1 or more, and a key of `len` characters ends by n at the last of them.
    fn list_good(numbers: &[Number], n: usize, len: usize) -> bool
        requires { (1 ≤ length numbers.now) × (length numbers.now ≤ greatest_number) × (n ≤ greatest_number) ×
            (len ≤ greatest_number) }
        ensures { result ≡ list_good (read_as as_gaps) n len numbers.now };
}

// Numbers that are the positions themselves.
pub struct Positions;

// Numbers that add up to the positions.
pub struct Gaps;

// Whether positions ascend strictly from 1 or more. A flag is set where one does not: to clear one takes more instructions in the vector
// loop. `position <= last` is the same test, but takes longer in the loop of single steps.
fn rise(positions: &[Number]) -> bool
    ensures { result ≡ rise_from 1 positions.now }
{
    let mut descends = false;
    let mut last: Number = 0;
    for i in 0..positions.len() {
        let position = positions[i];
        descends |= !(last < position);
        last = position;
    }
    !descends
}

impl ListForm for Positions {
    ghost as_gaps = { false };

    fn floor_of(before: Number) -> Number {
        before
    }

    fn list_good(numbers: &[Number], n: usize, len: usize) -> bool {
        let last = number_at(numbers, numbers.len() - 1);
        if n + 1 < last + len {
            return false;
        }
        rise(numbers)
    }
}

// The positions ascend if no gap is 0, and the last of them is the sum of all gaps, which a `Sum` holds.
impl ListForm for Gaps {
    ghost as_gaps = { true };

    fn floor_of(_before: Number) -> Number {
        0
    }

    fn list_good(numbers: &[Number], n: usize, len: usize) -> bool {
        let mut good = true;
        let mut sum: Sum = 0;
        for gap in numbers {
            good &= 0 < *gap;
            sum += *gap as Sum;
        }
        if n + 1 < from_sum(sum) + len {
            return false;
        }
        good
    }
}

// Whether the numbers of a line are there, at least one, and are a good list of a key of `len` characters. A list of one number is read
// alike in both forms.
pub(crate) fn line_list_good<F: ListForm>(
    index: &[Number],
    line: Line,
    n: usize,
    len: usize,
) -> bool
    requires { (line.from ≤ line.to) × (line.from ≤ length index.now) × (line.to - line.from ≤ greatest_number) ×
        (n ≤ greatest_number) × (len ≤ greatest_number) }
    ensures { result ≡ line_list_good (read_as F.as_gaps) n len (line.to - line.from) (drop line.from index.now) }
{
    if index.len() < line.to {
        return false;
    }
    match &index[line.from..line.to] {
        [] => false,
        [only] => (*only as usize + len <= n + 1) & (0 < *only),
        list => F::list_good(list, n, len),
    }
}
