// The header and the fields of a directory line, read and written.
ghost use Rattle.std.specs.Prelude.{◌≡◌, ◌+◌, ◌*◌, ◌^◌, ◌≤◌, ◌<◌, length};
ghost use Rattle.spec.specs.Index.{header, greatest_number, n_of, keys_of, kind_at, value_at, count_at};
ghost use Rattle.models.specs.Window.{field_at};

use width::{Number, number_at};

// How many numbers precede the directory: n and K.
pub const HEADER: usize = 2;

// The most keys that an index has, of any width: 4,096 words and 65,536 characters.
pub const MOST_KEYS: usize = 69632;

// n, the length of the text.
pub fn text_len(index: &[Number]) -> usize
    requires { header ≤ length index.now }
    ensures { (result ≡ n_of index.now) × (result ≤ greatest_number) }
{
    number_at(index, 0)
}

// K, the number of keys.
pub fn key_count(index: &[Number]) -> usize
    requires { header ≤ length index.now }
    ensures { (result ≡ keys_of index.now) × (result ≤ greatest_number) }
{
    number_at(index, 1)
}

// Where the numbers of a line start; those of line K would start where the positions do.
pub fn line_start(line: usize) -> usize
    requires { line ≤ 2 ^ 32 }
    ensures { result ≡ header + 3 * line }
{
    HEADER + 3 * line
}

// A field of a line: 0 its kind, 1 its value, 2 its count.
pub fn field_at(index: &[Number], line: usize, field: usize) -> usize
    requires { (header + 3 * line + 2 < length index.now) × (field ≤ 2) }
    ensures { (result ≡ field_at index.now field line) × (result ≤ greatest_number) }
{
    number_at(index, HEADER + 3 * line + field)
}

// The kind of a line: 0 for a word, 1 for a lone character.
pub fn kind_at(index: &[Number], line: usize) -> usize
    requires { header + 3 * line + 2 < length index.now }
    ensures { (result ≡ kind_at index.now line) × (result ≤ greatest_number) }
{
    field_at(index, line, 0)
}

// The value of a line: the number of a word, or a lone character.
pub fn value_at(index: &[Number], line: usize) -> usize
    requires { header + 3 * line + 2 < length index.now }
    ensures { (result ≡ value_at index.now line) × (result ≤ greatest_number) }
{
    field_at(index, line, 1)
}

// The count of a line: how many positions it has.
pub fn count_at(index: &[Number], line: usize) -> usize
    requires { header + 3 * line + 2 < length index.now }
    ensures { (result ≡ count_at index.now line) × (result ≤ greatest_number) }
{
    field_at(index, line, 2)
}
