// One key at one offset: extends the reach of each start of a window at which an entry of the key then lies.
//
// An entry that starts inside the covered prefix or right after it, and ends later, extends the reach to its end. Of a long list only the
// positions that fall into the window are walked, between two lower bounds; a short list is walked whole, which costs less than a search.
// Range tests take a wrapping difference: below the range it is very large, so one comparison tests both ends.
ghost use Rattle.std.specs.Prelude.{◌<◌, ◌≤◌, length};
ghost use Rattle.spec.specs.Index.{greatest_number};
ghost use Rattle.models.specs.Window.{positions_all, key_all};
ghost use Rattle.laws.specs.Window.Window.{Reaches};
ghost use Rattle.laws.specs.Window.ListRange.{Ascending, WindowRange};
ghost use Rattle.laws.specs.Window.ExtendAtPositions.{Extends};
ghost use Rattle.cover.specs.Windows.{IsWindow, SameStarts};

use crate::lower_bound::lower_bound;
use crate::placement::Placement;
use agreement::offset::agrees_at;
use width::{Number, number_at};

// A window of starts: the reach of each, the first of them, and the greatest reach so far.
#[derive(Drop)]
pub(crate) struct Window<'a> {
    pub reach: &'a mut [Number],
    pub first: usize,
    pub highest: usize,
}

// Extends the reach at index `p` to `end` if it is from `key_start` to `end` - 1. Answers whether it did.
fn extend_start(reach: &mut [Number], p: usize, key_start: usize, end: usize) -> bool
    requires { (p < length reach.old) × (key_start ≤ end) × (end ≤ greatest_number) }
    ensures { Extends key_start end reach.old p result reach.new }
{
    let gain = end - key_start;
    let above = number_at(reach, p).wrapping_sub(key_start);
    if above < gain {
        reach[p] = end as Number;
        return true;
    }
    false
}

impl Window<'_> {
    // Extends the reach of each start at which an entry of these positions lies at the offset; tests every position.
    fn extend_at_all(&mut self, positions: &[Number], placement: Placement)
        requires { IsWindow self.old }
        ensures extended { Reaches (positions_all placement.string_start placement.key_start placement.len self.old.first
            positions.now self.old.reach.now) self.new.reach.now self.new.highest }
        ensures same { SameStarts self.old self.new }
    {
        let end = placement.end();
        let peak = self.highest.max(end);
        let from = self.first + placement.key_start;
        let reach = &mut *self.reach;
        let mut highest = self.highest;
        for position in positions {
            let at = *position as usize + placement.string_start;
            let p = at.wrapping_sub(from);
            if p < reach.len() && extend_start(reach, p, placement.key_start, end) {
                highest = peak;
            }
        }
        self.highest = highest;
    }

    // Extends the reach of the starts that the positions from index `from` to `to` - 1 fall on, which are those in the window. Within the
    // function that extends a window, its loop would keep `highest` in memory.
    #[inline(never)]
    fn extend_at_range(
        &mut self,
        positions: &[Number],
        from: usize,
        to: usize,
        placement: Placement,
    )
        requires is_window { IsWindow self.old }
        requires range { WindowRange positions.now placement.string_start placement.key_start self.old.first (length self.old.reach.now)
            from to }
        ensures extended { Reaches (positions_all placement.string_start placement.key_start placement.len self.old.first
            positions.now self.old.reach.now) self.new.reach.now self.new.highest }
        ensures same { SameStarts self.old self.new }
    {
        let end = placement.end();
        let peak = self.highest.max(end);
        let base = self.first + placement.key_start;
        let reach = &mut *self.reach;
        let mut highest = self.highest;
        for i in from..to {
            let p = number_at(positions, i) + placement.string_start - base;
            if extend_start(reach, p, placement.key_start, end) {
                highest = peak;
            }
        }
        self.highest = highest;
    }

    // Extends the reach of each start at which an entry of these positions lies at the offset: walks a short list whole, of a long one
    // the range in the window.
    pub(crate) fn extend_at_positions(&mut self, positions: &[Number], placement: Placement)
        requires ascending { Ascending positions.now }
        requires is_window { IsWindow self.old }
        ensures extended { Reaches (positions_all placement.string_start placement.key_start placement.len self.old.first
            positions.now self.old.reach.now) self.new.reach.now self.new.highest }
        ensures same { SameStarts self.old self.new }
    {
        if positions.len() <= 16 {
            self.extend_at_all(positions, placement);
            return;
        }
        let base = self.first + placement.key_start;
        let past = base + self.reach.len();
        let from = lower_bound(positions, base.saturating_sub(placement.string_start));
        let to = lower_bound(positions, past.saturating_sub(placement.string_start));
        self.extend_at_range(positions, from, to, placement);
    }

    // Extends the reach by one key laid with its index `at` on the start of the string, if it agrees with the string there.
    pub(crate) fn extend_key(
        &mut self,
        key: &[u16],
        string: &[u16],
        positions: &[Number],
        at: usize,
    )
        requires short { length key.now ≤ 32 }
        requires inside { at < length key.now }
        requires ascending { Ascending positions.now }
        requires is_window { IsWindow self.old }
        ensures extended { Reaches (key_all at 0 string.now key.now self.old.first positions.now self.old.reach.now)
            self.new.reach.now self.new.highest }
        ensures same { SameStarts self.old self.new }
    {
        if agrees_at(key, string, -(at as i32)) {
            let placement = Placement {
                len: key.len(),
                string_start: at,
                key_start: 0,
            };
            self.extend_at_positions(positions, placement);
        }
    }
}
