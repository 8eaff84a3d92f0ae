// The width of an index: the type of its numbers, the type of sums of its counts, and the greatest length of a text that it states.
//
// An index's number is a `usize` where it is read, and cast where it is stored. What differs between widths stands here alone.
#![tactic(auto)]

ghost use Rattle.std.specs.Prelude.{◌≡◌, ◌*◌, ◌≤◌, ◌<◌, length, get_or};
ghost use Rattle.spec.specs.Index.{greatest_number};

// A number of an index, of a position list, or of the work slice.
pub type Number = u16;

// A sum of counts: where a position list starts, counted from the first list.
pub type Sum = u32;

// The greatest length of a text.
pub const LONGEST: usize = 65535;

// A character as a number, where a text is written as numbers.
pub fn from_char(character: u16) -> Number
    ensures { result ≡ character }
{
    Number::from(character)
}

// A sum of no more counts than a number can state, kept in a table.
pub fn to_sum(sum: usize) -> Sum
    requires { sum ≤ greatest_number * greatest_number }
    ensures { result ≡ sum }
{
    sum as Sum
}

// A sum as an index of a slice.
pub fn from_sum(sum: Sum) -> usize
    ensures { result ≡ sum }
{
    sum as usize
}

// The number at an index of a slice.
pub fn number_at(numbers: &[Number], at: usize) -> usize
    requires { at < length numbers.now }
    ensures { (result ≡ get_or numbers.now at 0) × (result ≤ greatest_number) }
{
    numbers[at] as usize
}
