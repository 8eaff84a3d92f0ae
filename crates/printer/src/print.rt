// Prints bytes, numbers and the lines of an answer, each into a lent slice from an index on. Every function answers the index after what it
// wrote, and leaves the rest of the slice unchanged. The cost is linear in the bytes written.
//
// The index is an argument and an answer: each method of a struct of slice and index would have to promise, beside what it writes, that the
// slice is still the one lent, or the lender would not learn what is written. Digits are computed: `itoa` has a table of 200 bytes in
// read-only memory.
ghost use Rattle.std.specs.Prelude.{◌≡◌, ◌∷◌, [], ◌++◌, ◌+◌, ◌≤◌, ◌<◌, length};
ghost use Rattle.basics.specs.Placed.{Wrote};
ghost use Rattle.spec.specs.Numbers.{line};
ghost use Rattle.spec.specs.Index.{lines_in};
ghost use Rattle.spec.specs.JobAnswer.{decimal, digit_byte, hexadecimal, gap, spaced, index_line, found_line, refused_line, key_name};
ghost use Rattle.spec.specs.JobAnswer.{key_line, key_lines, index_lines};
ghost use Rattle.models.specs.JobSheet.{each_spaced, listed};
ghost use Rattle.laws.specs.Numbers.Slices.{Fits};
ghost use Rattle.layout.specs.Keys.{key_of};

use layout::fields::{key_count, line_start, text_len};
use layout::keys::Key;
use layout::lines::{Lines, PostingList};
use width::Number;

// Writes one byte.
fn put_byte(out: &mut [u8], at: usize, byte: u8) -> usize
    requires { at < length out.old }
    ensures { Wrote (byte ∷ []) at out.old result out.new }
{
    out[at] = byte;
    at + 1
}

// Writes a run of bytes.
pub fn put_bytes(out: &mut [u8], at: usize, bytes: &[u8]) -> usize
    requires { at + length bytes.now ≤ length out.old }
    ensures { Wrote bytes.now at out.old result out.new }
{
    let end = at + bytes.len();
    out[at..end].copy_from_slice(bytes);
    end
}

// Writes a number in decimal: by recursion, as division gives the last digit first.
fn put_decimal(out: &mut [u8], at: usize, n: usize) -> usize
    requires { at + length (decimal n) ≤ length out.old }
    ensures { Wrote (decimal n) at out.old result out.new }
{
    let last = b'0' + (n % 10) as u8;
    if n < 10 {
        return put_byte(out, at, last);
    }
    let end = put_decimal(out, at, n / 10);
    put_byte(out, end, last)
}

// The byte of a hexadecimal digit.
#[tactic(auto, unfolding(spec::specs::JobAnswer::digit_byte))]
fn digit_byte(value: usize) -> u8
    requires { value < 16 }
    ensures { result ≡ digit_byte value }
{
    match value {
        0..=9 => b'0' + value as u8,
        _ => b'A' - 10 + value as u8,
    }
}

// Writes a character as four hexadecimal digits.
fn put_hexadecimal(out: &mut [u8], at: usize, character: usize) -> usize
    requires { at + 4 ≤ length out.old }
    ensures { Wrote (hexadecimal character) at out.old result out.new }
{
    let digits = [
        digit_byte(character / 4096 % 16),
        digit_byte(character / 256 % 16),
        digit_byte(character / 16 % 16),
        digit_byte(character % 16),
    ];
    put_bytes(out, at, &digits)
}

// Writes a space and a number.
fn put_next_decimal(out: &mut [u8], at: usize, n: usize) -> usize
    requires { at + length (gap ++ decimal n) ≤ length out.old }
    ensures { Wrote (gap ++ decimal n) at out.old result out.new }
{
    let end = put_bytes(out, at, b" ");
    put_decimal(out, end, n)
}

// Writes positions, each after a space.
fn put_next_positions(out: &mut [u8], at: usize, positions: &[Number]) -> usize
    requires { at + length (each_spaced positions.now) ≤ length out.old }
    ensures { Wrote (each_spaced positions.now) at out.old result out.new }
{
    let mut end = at;
    for position in positions {
        end = put_next_decimal(out, end, *position as usize);
    }
    end
}

// Writes positions with a space between.
fn put_positions(out: &mut [u8], at: usize, positions: &[Number]) -> usize
    requires { at + length (spaced positions.now) ≤ length out.old }
    ensures { Wrote (spaced positions.now) at out.old result out.new }
{
    let Some((first, others)) = positions.split_first() else {
        return at;
    };
    let end = put_decimal(out, at, *first as usize);
    put_next_positions(out, end, others)
}

// Writes positions in parentheses, and the end of a line.
fn put_list(out: &mut [u8], at: usize, positions: &[Number]) -> usize
    requires { at + length (listed positions.now) ≤ length out.old }
    ensures { Wrote (listed positions.now) at out.old result out.new }
{
    let first = put_bytes(out, at, b" (");
    let last = put_positions(out, first, positions);
    put_bytes(out, last, b"))\n")
}

// Writes the line of an index's three numbers.
fn put_index_line(out: &mut [u8], at: usize, n: usize, k: usize, m: usize) -> usize
    requires { at + length (index_line n k m) ≤ length out.old }
    ensures { Wrote (index_line n k m) at out.old result out.new }
{
    let number = put_bytes(out, at, b"(index ");
    let second = put_decimal(out, number, n);
    let third = put_next_decimal(out, second, k);
    let last = put_next_decimal(out, third, m);
    put_bytes(out, last, b")\n")
}

// Writes the line of a find.
pub fn put_found_line(out: &mut [u8], at: usize, positions: &[Number]) -> usize
    requires { at + length (found_line positions.now) ≤ length out.old }
    ensures { Wrote (found_line positions.now) at out.old result out.new }
{
    let number = put_bytes(out, at, b"(found ");
    let list = put_decimal(out, number, positions.len());
    put_list(out, list, positions)
}

// Writes the line of a refused sheet.
pub fn put_refused_line(out: &mut [u8], at: usize, refusal: usize) -> usize
    requires { at + length (refused_line refusal) ≤ length out.old }
    ensures { Wrote (refused_line refusal) at out.old result out.new }
{
    let number = put_bytes(out, at, b"(refused ");
    let last = put_decimal(out, number, refusal);
    put_bytes(out, last, b")\n")
}

// Writes a key: a word by its number, a lone character by itself.
fn put_key_name(out: &mut [u8], at: usize, key: Key) -> usize
    requires { at + length (key_name (key_of key)) ≤ length out.old }
    ensures { Wrote (key_name (key_of key)) at out.old result out.new }
{
    match key {
        Key::Word(number) => {
            let value = put_bytes(out, at, b"(key word ");
            put_decimal(out, value, number)
        }
        Key::Lone(character) => {
            let value = put_bytes(out, at, b"(key lone ");
            put_hexadecimal(out, value, character)
        }
    }
}

// Writes the line of a key.
fn put_key_line(out: &mut [u8], at: usize, list: &PostingList) -> usize
    requires { at + length (key_line (line (key_of list.now.key) list.now.positions.now)) ≤ length out.old }
    ensures { Wrote (key_line (line (key_of list.now.key) list.now.positions.now)) at out.old result out.new }
{
    let positions = put_key_name(out, at, list.key);
    put_list(out, positions, list.positions)
}

// Writes a line for each key of an index, in order.
fn put_key_lines(out: &mut [u8], at: usize, numbers: &[Number]) -> usize
    requires { Fits numbers.now × (at + length (key_lines (lines_in numbers.now)) ≤ length out.old) }
    ensures { Wrote (key_lines (lines_in numbers.now)) at out.old result out.new }
{
    let mut end = at;
    for list in Lines::new(numbers) {
        end = put_key_line(out, end, &list);
    }
    end
}

// Writes the lines of an index: its three numbers, then its keys.
pub fn put_index_lines(out: &mut [u8], at: usize, numbers: &[Number]) -> usize
    requires { Fits numbers.now × (at + length (index_lines numbers.now) ≤ length out.old) }
    ensures { Wrote (index_lines numbers.now) at out.old result out.new }
{
    let keys = key_count(numbers);
    let entries = numbers.len() - line_start(keys);
    let end = put_index_line(out, at, text_len(numbers), keys, entries);
    put_key_lines(out, end, numbers)
}
