// Binary search over the directory: lower bounds, and the equal range of words that have a character at a depth.
//
// The lines of words come first and their words ascend, so words that share their first characters are neighbours, sorted by the next one.
// The lines of lone characters follow, sorted by value. Where the first and the last word of a range have the character, or it lies before
// the first or after the last, nothing is searched.
ghost use Rattle.std.specs.Prelude.{◌≡◌, ◌+◌, ◌*◌, ◌≤◌, ◌<◌, length, get_or};
ghost use Rattle.spec.specs.Index.{header, keys_of, value_at};
ghost use Rattle.models.specs.Window.{field_at};
ghost use Rattle.laws.specs.Numbers.Slices.{Fits};
ghost use Rattle.basics.specs.LowerBound.{Rising, LowerBound};
ghost use Rattle.laws.specs.Window.WordLines.{WordColumn, word_char};

use bisect::{Column, lower_bound};
use layout::fields::{field_at, key_count, value_at};
use width::Number;

// Lines `from` to `to` - 1.
#[derive(Clone, Copy)]
pub struct Range {
    pub from: usize,
    pub to: usize,
}

// The numbers of lines at a field.
#[derive(Drop)]
struct Field<'a> {
    index: &'a [Number],
    field: usize,
}

impl<'a> Column for Field<'a> {
    ghost can = { λ s line. (header + 3 * line + 2 < length s.index.now) × (s.field ≤ 2) };

    ghost value = { λ s. field_at s.index.now s.field };

    fn at(&self, line: usize) -> usize {
        field_at(self.index, line, self.field)
    }
}

// The first of the lines `low` to `high` - 1 whose number at `field` is not below `least`, or `high`.
pub fn line_lower_bound(
    index: &[Number],
    low: usize,
    high: usize,
    field: usize,
    least: usize,
) -> usize
    requires { (header + 3 * high ≤ length index.now) × (field ≤ 2) × Rising (field_at index.now field) low high }
    ensures { LowerBound (field_at index.now field) low high least result }
{
    lower_bound(&Field { index, field }, low, high, least)
}

// How many lines are those of words: the lower bound of kind 1.
pub fn count_word_lines(index: &[Number]) -> usize
    requires { Fits index.now × Rising (field_at index.now 0) 0 (keys_of index.now) }
    ensures { LowerBound (field_at index.now 0) 0 (keys_of index.now) 1 result }
{
    line_lower_bound(index, 0, key_count(index), 0, 1)
}

// The characters at a depth of the words of lines.
#[derive(Drop)]
struct Characters<'a> {
    chars: &'a [u16],
    index: &'a [Number],
    word_starts: &'a [u16],
    depth: usize,
}

impl<'a> Column for Characters<'a> {
    ghost can = { λ s line. (header + 3 * line + 2 < length s.index.now) × (value_at s.index.now line < length s.word_starts.now) ×
        (get_or s.word_starts.now (value_at s.index.now line) 0 + s.depth < length s.chars.now) };

    ghost value = { λ s. word_char s.chars.now s.index.now s.word_starts.now s.depth };

    fn at(&self, line: usize) -> usize {
        let start = self.word_starts[value_at(self.index, line)] as usize;
        self.chars[start + self.depth] as usize
    }
}

// The equal range among the lines `low` to `high` - 1: those whose word has this character at `depth`.
pub fn equal_range(
    chars: &[u16],
    index: &[Number],
    word_starts: &[u16],
    low: usize,
    high: usize,
    depth: usize,
    character: u16,
) -> Range
    requires { WordColumn chars.now index.now word_starts.now low high depth }
    ensures { LowerBound (word_char chars.now index.now word_starts.now depth) low high character result.from ×
        LowerBound (word_char chars.now index.now word_starts.now depth) result.from high (character + 1)
        result.to }
{
    let column = Characters {
        chars,
        index,
        word_starts,
        depth,
    };
    let least = character as usize;
    if low < high {
        let first = column.at(low);
        if least < first {
            return Range { from: low, to: low };
        }
        let last = column.at(high - 1);
        if last < least {
            return Range {
                from: high,
                to: high,
            };
        }
        if first == last {
            return Range {
                from: low,
                to: high,
            };
        }
    }
    let from = lower_bound(&column, low, high, least);
    let to = lower_bound(&column, from, high, least + 1);
    Range { from, to }
}
