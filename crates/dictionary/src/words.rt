// The words of an admitted dictionary by number, with a table of where the characters of each start.
ghost use Rattle.std.specs.Prelude.{◌≡◌, [], ◌<◌, ◌≤◌, length, get_or};
ghost use Rattle.models.specs.WordStarts.{lengths_of, lexicon_at, word_len};
ghost use Rattle.laws.specs.Dictionary.WordStarts.{WordStarts};
ghost use Rattle.laws.specs.Match.MatchTable.{Started};

// A dictionary with its table of word starts, which has one entry more than there are words: the end of the last word.
#[derive(Clone, Copy)]
pub struct Words<'a> {
    pub chars: &'a [u16],
    pub starts: &'a [u16],
    ghost started: { Started chars.now starts.now },
}

impl<'a> Words<'a> {
    // The characters of a word.
    pub fn word(&self, number: usize) -> &'a [u16]
        requires { number < length (lengths_of self.now.starts.now) }
        ensures { result.now ≡ get_or (lexicon_at self.now.chars.now self.now.starts.now).words number [] }
    {
        word_of(self.chars, self.starts, number)
    }

    // The length of a word.
    pub fn word_len(&self, number: usize) -> usize
        requires { number < length (lengths_of self.now.starts.now) }
        ensures { (result ≡ word_len self.now.starts.now number) × (result ≤ 65535) }
    {
        usize::from(self.starts[number + 1]) - usize::from(self.starts[number])
    }
}

// The characters of a word, by any characters with a table of word starts.
pub fn word_of<'a>(chars: &'a [u16], word_starts: &[u16], word: usize) -> &'a [u16]
    requires { WordStarts chars.now word_starts.now × (word < length (lengths_of word_starts.now)) }
    ensures { result.now ≡ get_or (lexicon_at chars.now word_starts.now).words word [] }
{
    let start = usize::from(word_starts[word]);
    let end = usize::from(word_starts[word + 1]);
    &chars[start..end]
}
