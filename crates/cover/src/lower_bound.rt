// The lower bound of a number in an ascending list of positions, by binary search.
ghost use Rattle.std.specs.Prelude.{◌<◌, length, get_or};
ghost use Rattle.laws.specs.Window.ListRange.{Ascending, ListLowerBound};

use bisect::{Column, lower_bound_after_ends};
use width::{Number, number_at};

// The positions of a list.
#[derive(Drop)]
struct Positions<'a> {
    list: &'a [Number],
}

impl<'a> Column for Positions<'a> {
    ghost can = { λ s i. i < length s.list.now };

    ghost value = { λ s i. get_or s.list.now i 0 };

    fn at(&self, i: usize) -> usize {
        number_at(self.list, i)
    }
}

// The first index whose position is not below `least`, or the list's length.
pub(crate) fn lower_bound(positions: &[Number], least: usize) -> usize
    requires { Ascending positions.now }
    ensures { ListLowerBound positions.now least result }
{
    lower_bound_after_ends(&Positions { list: positions }, 0, positions.len(), least)
}
