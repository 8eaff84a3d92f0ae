// The line map: at each position, the number plus 1 of a directory line whose list has it; 0 for no line, as it lies in the work slice.
//
// One walk over the directory with the positions of each line as it is reached. A line's number plus 1 fits a `Number`, since the count of
// keys is one. The cost is one store a position.
ghost use Rattle.std.specs.Prelude.{◌≡◌, ◌≤◌, length};
ghost use Rattle.spec.specs.Index.{greatest_number, lines_in};
ghost use Rattle.models.specs.Reception.{fill_positions, fill_line_map};
ghost use Rattle.laws.specs.Receive.PositionWalk.{LieWithin};
ghost use Rattle.laws.specs.Receive.LineMapWalk.{CanMap};

use layout::lines::Lines;
use width::Number;

// Writes one number at each of these positions.
pub(crate) fn fill_at(value: usize, positions: &[Number], slots: &mut [Number])
    requires { LieWithin 1 (length slots.old) positions.now × (value ≤ greatest_number) }
    ensures { slots.new ≡ fill_positions value positions.now slots.old }
{
    for position in positions {
        slots[*position as usize - 1] = value as Number;
    }
}

// Writes each line's number plus 1 at its positions.
pub fn fill_line_map(index: &[Number], line_map: &mut [Number])
    requires { CanMap index.now (length line_map.old) }
    ensures { line_map.new ≡ fill_line_map 0 (lines_in index.now) line_map.old }
{
    for line in Lines::new(index) {
        fill_at(line.number + 1, line.positions, line_map);
    }
}
