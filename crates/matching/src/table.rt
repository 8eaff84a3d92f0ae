// The match table: hash chains of words, one for each bucket.
//
// A word of two characters or more is hashed by its first two, a word of one by that one, so that a lookup which reads two characters meets
// nearly only words that begin with them. Words are inserted in ascending order, each at the head of its chain: a chain runs through
// descending numbers, and of the words that stand at one position the first on it is the longest. A head or a link is 0 at the end of a
// chain, else one more than a word's number: the tables are lent memory, with two bytes an entry, so an entry is no `Option`. The cost is a
// few steps a word.
ghost use Rattle.std.specs.Prelude.{◌≡◌, ◌+◌, ◌≤◌, ◌<◌, length, replicate, take};
ghost use Rattle.std.proofs.Props.{props};
ghost use Rattle.basics.specs.Writing.{over};
ghost use Rattle.spec.specs.Dictionary.{lexicon};
ghost use Rattle.spec.specs.Index.{greatest_number};
ghost use Rattle.models.specs.WordStarts.{starts_from};
ghost use Rattle.models.specs.MatchTable.{pair_bucket, char_bucket};
ghost use Rattle.laws.specs.Match.MatchTable.{BucketRead, Room, Tables};
ghost use Rattle.dictionary.specs.Words.{lexicon_of};
ghost use Rattle.matching.specs.ChainProp.{chain_prop};

use dictionary::admission::Dictionary;
use dictionary::words::Words;

// The words of a dictionary with their match table: the head of each bucket's chain, and the link of each word.
#[derive(Clone, Copy)]
pub struct MatchTable<'a> {
    pub words: Words<'a>,
    pub heads: &'a [u16],
    pub links: &'a [u16],
    ghost filled: { Tables words.chars.now words.starts.now heads.now links.now } by { Prim.hlevel (chain_prop, props) },
}

// The bucket of words that begin with these two characters.
pub(crate) fn bucket_of_pair(x: usize, y: usize) -> usize
    requires { (x ≤ greatest_number) × (y ≤ greatest_number) }
    ensures value { result ≡ pair_bucket x y }
    ensures small { result < 8192 }
{
    (37 * x + y) % 8192
}

// The bucket of the one-character word of this character.
pub(crate) fn bucket_of_char(x: usize) -> usize
    ensures value { result ≡ char_bucket x }
    ensures small { result < 10240 }
{
    8192 + x % 2048
}

// The bucket of the word of `len` characters at `at`.
fn bucket_of_word(chars: &[u16], at: usize, len: usize) -> usize
    requires { (1 ≤ len) × (at + len ≤ length chars.now) }
    ensures { BucketRead chars.now at len result }
{
    if len == 1 {
        return bucket_of_char(chars[at] as usize);
    }
    bucket_of_pair(chars[at] as usize, chars[at + 1] as usize)
}

// Fills the match table of an admitted dictionary, and in the same walk the table of its word starts. Two walks take longer: this one waits
// for characters while it stores a start.
pub fn fill_match_table(
    chars: &[u16],
    lengths: &[u16],
    word_starts: &mut [u16],
    heads: &mut [u16],
    links: &mut [u16],
)
    requires { Room chars.now lengths.now word_starts.old heads.old links.old }
    ensures starts { word_starts.new ≡ over (starts_from 0 lengths.now) word_starts.old }
    ensures table { Tables chars.now (take (length lengths.now + 1) word_starts.new) heads.new
        links.new }
{
    let mut at: usize = 0;
    for (i, len) in lengths.iter().enumerate() {
        let len = *len as usize;
        let b = bucket_of_word(chars, at, len);
        word_starts[i] = at as u16;
        links[i] = heads[b];
        heads[b] = (i + 1) as u16;
        at += len;
    }
    word_starts[lengths.len()] = at as u16;
}

// The match table of an admitted dictionary, in tables that the caller lends. The dictionary is copied in, so that all of the
// match table lives as long as these do.
pub fn match_table<'a>(
    dictionary: Dictionary<'a>,
    word_starts: &'a mut [u16; 4097],
    heads: &'a mut [u16; 10240],
    links: &'a mut [u16; 4096],
) -> MatchTable<'a>
    requires { heads.old ≡ replicate 10240 0 }
    ensures { lexicon_of result.words ≡ lexicon dictionary.entry.chars.now dictionary.entry.lengths.now }
{
    let Dictionary { chars, lengths } = dictionary;
    fill_match_table(chars, lengths, word_starts, heads, links);
    let starts = &word_starts[..lengths.len() + 1];
    let words = Words { chars, starts };
    MatchTable {
        words,
        heads,
        links,
    }
}
