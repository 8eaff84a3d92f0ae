// The lines of an index by value. Each line's positions start where those of the line before end.
ghost use Rattle.std.specs.Prelude.{◌≡◌, ◌+◌, ◌-◌, ◌*◌, ◌≤◌, ◌<◌, MatchOption, length};
ghost use Rattle.std.specs.Iterator.{at_most};
ghost use Rattle.spec.specs.Index.{header, greatest_number, keys_of};
ghost use Rattle.models.specs.Window.{list_start};
ghost use Rattle.laws.specs.Numbers.DirectoryWalk.{LineAt};
ghost use Rattle.laws.specs.Numbers.Slices.{Fits};
ghost use Rattle.layout.specs.Lists.{IsPostingList};

use crate::fields::{count_at, key_count, kind_at, line_start, value_at};
use crate::keys::Key;
use width::Number;

// A line: its key, and from where to where its positions go.
#[derive(Clone, Copy)]
pub struct Line {
    pub kind: usize,
    pub value: usize,
    pub from: usize,
    pub to: usize,
}

// The line `number`, whose positions start at `from`, counted from wherever the walk counts. Those of the next line start at its `to`.
pub fn next_line(index: &[Number], number: usize, from: usize) -> Line
    requires { (header + 3 * number + 2 < length index.now) × (from ≤ length index.now) }
    ensures { LineAt index.now number from result.kind result.value result.from result.to }
{
    Line {
        kind: kind_at(index, number),
        value: value_at(index, number),
        from,
        to: from + count_at(index, number),
    }
}

// The posting list of a line: the line's number and its key, and the positions.
#[derive(Clone, Copy)]
pub struct PostingList<'a> {
    pub number: usize,
    pub key: Key,
    pub positions: &'a [Number],
}

// The lines of an index whose lengths fit: those from `number` on, whose positions start at `at`.
#[derive(Drop)]
pub struct Lines<'a> {
    index: &'a [Number],
    keys: usize,
    number: usize,
    at: usize,
    ghost fits: { Fits index.now },
    ghost keys_is: { keys ≡ keys_of index.now },
    ghost keys_small: { keys ≤ greatest_number },
    ghost within: { number ≤ keys },
    ghost at_is: { at ≡ list_start index.now number },
}

impl<'a> Lines<'a> {
    // All lines of an index.
    pub fn new(index: &'a [Number]) -> Lines<'a>
        requires { Fits index.now }
        ensures { (result.index.now ≡ index.now) × (result.number ≡ 0) }
    {
        let keys = key_count(index);
        Lines {
            index,
            keys,
            number: 0,
            at: line_start(keys),
        }
    }
}

impl<'a> Iterator for Lines<'a> {
    type Item = PostingList<'a>;

    ghost next_gives = { λ s r t. MatchOption r (keys_of s.index.now ≤ s.number)
        (λ list. IsPostingList s.index.now s.number list.key list.positions.now × (list.number ≡ s.number) ×
        (t.index.now ≡ s.index.now) × (t.number ≡ s.number + 1)) };

    ghost remaining = { λ s. at_most (keys_of s.index.now - s.number) };

    fn next(&mut self) -> Option<PostingList<'a>> {
        if self.number == self.keys {
            return None;
        }
        let line = next_line(self.index, self.number, self.at);
        let list = PostingList {
            number: self.number,
            key: Key::new(line.kind, line.value),
            positions: &self.index[line.from..line.to],
        };
        self.number += 1;
        self.at = line.to;
        Some(list)
    }
}
