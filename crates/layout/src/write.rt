// The header and a directory line, written.
ghost use Rattle.std.specs.Prelude.{◌≡◌, List, [], ◌∷◌, ◌+◌, ◌*◌, ◌≤◌, length};
ghost use Rattle.basics.specs.Placed.{placed};
ghost use Rattle.basics.specs.Writing.{over};
ghost use Rattle.spec.specs.Numbers.{Line, header_numbers};
ghost use Rattle.spec.specs.Index.{header, greatest_number};
ghost use Rattle.laws.specs.Numbers.Header.{SizeOf};
ghost use Rattle.layout.specs.Keys.{key_of};

use crate::fields::HEADER;
use crate::keys::Key;
use width::Number;

// How many keys and entries an index has.
#[derive(Clone, Copy)]
pub struct Size {
    pub keys: usize,
    pub entries: usize,
}

// Writes the header of lines that have this size.
pub fn write_header(output: &mut [Number], n: usize, size: Size)
    requires { (header ≤ length output.old) × (n ≤ greatest_number) × (size.keys ≤ greatest_number) }
    ensures { (ls : List Line) → SizeOf ls size.keys size.entries →
        output.new ≡ over (header_numbers n ls) output.old }
{
    output[0] = n as Number;
    output[1] = size.keys as Number;
}

// Writes the kind, value and count of a line.
pub fn write_line(output: &mut [Number], line: usize, kind: usize, value: usize, count: usize)
    requires { (header + 3 * line + 3 ≤ length output.old) × (kind ≤ greatest_number) × (value ≤ greatest_number) ×
        (count ≤ greatest_number) }
    ensures { output.new ≡ placed (kind ∷ value ∷ count ∷ []) (header + 3 * line) output.old }
{
    let at = HEADER + 3 * line;
    output[at] = kind as Number;
    output[at + 1] = value as Number;
    output[at + 2] = count as Number;
}

// Writes a line by its key: the key's kind and value, and the count.
pub fn write_key(output: &mut [Number], line: usize, key: Key, count: usize)
    requires { (header + 3 * line + 3 ≤ length output.old) × ((key_of key).value ≤ greatest_number) × (count ≤ greatest_number) }
    ensures { output.new ≡ placed ((key_of key).kind ∷ (key_of key).value ∷ count ∷ []) (header + 3 * line) output.old }
{
    let (kind, value) = key.numbers();
    write_line(output, line, kind, value, count);
}
