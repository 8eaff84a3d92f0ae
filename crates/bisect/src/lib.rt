// Binary search: the lower bound of a number in a column of numbers that rise.
//
// A column is any table that gives a number for an index, and each caller writes its own. The loop has a start and a length, which takes a
// register less than two ends do.
#![tactic(auto)]

ghost use Rattle.std.specs.Prelude.{◌≡◌, ℕ, ◌≤◌, ◌<◌};
ghost use Rattle.basics.specs.LowerBound.{Rising, LowerBound};

// Numbers by index, read one at a time.
pub trait Column {
    // Whether the number at an index may be read.
    ghost can: { Self → ℕ → Type 0 };

    ghost value: { Self → ℕ → ℕ };

    fn at(&self, index: usize) -> usize
        requires { can self.now index }
        ensures { result ≡ value self.now index };
}

// The first of the indexes `low` to `high` - 1 whose number is not below `least`, or `high`.
pub fn lower_bound<C: Column>(column: &C, low: usize, high: usize, least: usize) -> usize
    requires readable { (i : ℕ) → low ≤ i → i < high → C.can column.now i }
    requires rising { Rising (C.value column.now) low high }
    ensures { LowerBound (C.value column.now) low high least result }
{
    let mut a = low;
    let mut left = high - low;
    // A `while`: each step halves what is left.
    while 0 < left {
        let half = left / 2;
        let middle = a + half;
        if column.at(middle) < least {
            a = middle + 1;
            left -= half + 1;
        } else {
            left = half;
        }
    }
    a
}

// The same, where the number at the first or the last index often decides: both are compared before the search.
pub fn lower_bound_after_ends<C: Column>(column: &C, low: usize, high: usize, least: usize) -> usize
    requires readable { (i : ℕ) → low ≤ i → i < high → C.can column.now i }
    requires rising { Rising (C.value column.now) low high }
    ensures { LowerBound (C.value column.now) low high least result }
{
    if high <= low {
        return low;
    }
    if least <= column.at(low) {
        return low;
    }
    if column.at(high - 1) < least {
        return high;
    }
    lower_bound(column, low, high, least)
}
