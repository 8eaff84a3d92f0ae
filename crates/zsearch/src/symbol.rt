// A character of a text, whichever type it lies as.
//
// A string's characters are `u16`s, as are today the numbers that a text reconstructed from an index lies as.
ghost use Rattle.std.specs.Prelude.{◌≡◌, ℕ};

// What the characters of a string are compared with. `From` gives no `usize` of wider numbers.
pub(crate) trait Symbol: Copy {
    ghost value: { Self → ℕ };

    // The character's number.
    fn number(self) -> usize
        ensures { result ≡ value self };
}

impl Symbol for u16 {
    ghost value = { λ character. character };

    fn number(self) -> usize {
        usize::from(self)
    }
}
