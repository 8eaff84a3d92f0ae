// A list written to a slice of numbers, and the characters of a text that lies as numbers to a slice of characters. Each is one loop of one
// store a number.
ghost use Rattle.std.specs.Prelude.{◌≡◌, ◌+◌, ◌≤◌, length};
ghost use Rattle.basics.specs.Placed.{placed};
ghost use Rattle.basics.specs.Writing.{over};
ghost use Rattle.laws.specs.Text.Facts.{Chars};

use width::Number;

// Writes a list into the output, from the index `from` on. No `copy_from_slice`, which would have the library for C ask for `memmove`.
pub fn write_list(list: &[Number], from: usize, output: &mut [Number])
    requires { from + length list.now ≤ length output.old }
    ensures { output.new ≡ placed list.now from output.old }
{
    for (i, number) in list.iter().enumerate() {
        output[from + i] = *number;
    }
}

// Writes the characters of a text that lies as numbers to the start of the output. A number may be wider than a character, so each is cast.
pub fn write_chars(text: &[Number], output: &mut [u16])
    requires { Chars text.now × (length text.now ≤ length output.old) }
    ensures { output.new ≡ over text.now output.old }
{
    for (i, number) in text.iter().enumerate() {
        output[i] = *number as u16;
    }
}
