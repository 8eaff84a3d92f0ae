// Whether two runs of characters are equal, one comparison a character up to the first that differs.
ghost use Rattle.std.specs.Prelude.{◌+◌, ◌≤◌, length};
ghost use Rattle.basics.specs.Bools.{Reflects};
ghost use Rattle.laws.specs.Text.Strings.{SameRun};

use width::{Number, number_at};

// Whether `count` characters from `at` equal the numbers from `from`. The last one is compared first: callers come where runs that differ
// begin alike.
pub fn same_run(chars: &[u16], at: usize, numbers: &[Number], from: usize, count: usize) -> bool
    requires { (at + count ≤ length chars.now) × (from + count ≤ length numbers.now) }
    ensures { Reflects result (SameRun chars.now at numbers.now from count) }
{
    for i in (0..count).rev() {
        if chars[at + i] as usize != number_at(numbers, from + i) {
            return false;
        }
    }
    true
}
