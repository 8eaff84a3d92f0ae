// A key by name. In an index the kind of a line is a number, 0 for a word and 1 for a lone character, as the index is defined: what tests
// an index reads the numbers, and what walks over one that is tested reads keys.
ghost use Rattle.std.specs.Prelude.{◌≡◌, ◌≤◌};
ghost use Rattle.layout.specs.Keys.{key_of, Names};

// A word by its number, or a lone character.
#[derive(Clone, Copy, Debug, PartialEq, Eq)]
pub enum Key {
    Word(usize),
    Lone(usize),
}

impl Key {
    // The key of a line of this kind and value: a word where the kind is 0, else a lone character.
    pub fn new(kind: usize, value: usize) -> Key
        ensures { Names result kind value }
    {
        if kind == 0 {
            Key::Word(value)
        } else {
            Key::Lone(value)
        }
    }

    // The kind and value of its line.
    pub fn numbers(self) -> (usize, usize)
        ensures { (result.0 ≡ (key_of self).kind) × (result.1 ≡ (key_of self).value) × (result.0 ≤ 1) }
    {
        match self {
            Key::Word(number) => (0, number),
            Key::Lone(character) => (1, character),
        }
    }
}
