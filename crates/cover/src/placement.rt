// A key laid at an offset of the string. The offset is two natural starts, one of them 0.
ghost use Rattle.std.specs.Prelude.{◌≡◌, ◌+◌, ◌-◌, ◌≤◌, max};

// A key of `len` characters whose character `string_start` lies on the string's character `key_start`. They share a position, and the key
// ends by 288, as a string has at most 256 characters and a key at most 32.
#[derive(Clone, Copy)]
pub(crate) struct Placement {
    pub len: usize,
    pub string_start: usize,
    pub key_start: usize,
    ghost shared: { string_start ≤ key_start + len },
    ghost end_small: { key_start + len ≤ 288 },
}

impl Placement {
    // Where the key ends in the string.
    pub(crate) fn end(self) -> usize
        ensures { result ≡ max self.key_start (self.key_start + self.len - self.string_start) }
    {
        self.key_start
            .max(self.key_start + self.len - self.string_start)
    }
}
