// The longest word at a position of a text, by the match table.
//
// Words that begin with the two characters at the position are in one hash chain, by descending number. All words that stand at one
// position are prefixes of each other, so the first one met is the longest. Most chains have a word or two; a chain of many words is left
// after a few of them, and binary search takes over among the words before. A word that would end no later than the last registered one is
// not compared at all. A word of one character is looked up only where the position is not covered.
ghost use Rattle.std.specs.Prelude.{◌+◌, ◌<◌, length};
ghost use Rattle.models.specs.WordStarts.{lengths_of, word};
ghost use Rattle.laws.specs.Match.WordChains.{StandsAfter, PairFound, SingleFound};
ghost use Rattle.laws.specs.Match.LongestWord.{Found as FoundAt, PairLongest};
ghost use Rattle.dictionary.specs.Words.{lexicon_of};
ghost use Rattle.matching.specs.Answers.{plus_one, number_of, len_of};

use crate::ranges::find_last_standing;
use crate::table::{MatchTable, bucket_of_char, bucket_of_pair};
use copying::compare::same_run;
use dictionary::words::Words;
use width::{Number, number_at};

// A word by its number, and its length.
#[derive(Clone, Copy)]
pub struct Found {
    pub number: usize,
    pub len: usize,
}

// How many words of a chain are compared before binary search takes over.
const BUDGET: usize = 4;

// Whether the word stands in the text at index `at` and ends after `end`.
fn stands_after(words: &Words, text: &[Number], at: usize, end: usize, number: usize) -> bool
    requires { (at < length text.now) × (number < length (lengths_of words.now.starts.now)) }
    ensures { StandsAfter (word words.now.chars.now words.now.starts.now number) text.now (at + 1) (end + 1) result }
{
    let len = words.word_len(number);
    if at + len <= end {
        return false;
    }
    if text.len() < at + len {
        return false;
    }
    let start = words.starts[number] as usize;
    same_run(words.chars, start, text, at, len)
}

// The number of a word that stands at index `at`, if one is met. No word of a higher number, or none at all if none is met, has two
// characters or more, stands there and ends after `end`.
fn walk_pair(table: &MatchTable, text: &[Number], at: usize, end: usize) -> Option<usize>
    requires { at + 1 < length text.now }
    ensures { PairFound (lexicon_of table.now.words).words text.now (at + 1) (end + 1) (plus_one result) }
{
    let x = number_at(text, at);
    let y = number_at(text, at + 1);
    let bucket = bucket_of_pair(x, y);
    let mut next = table.heads[bucket] as usize;
    for _ in 0..BUDGET {
        let number = next.checked_sub(1)?;
        if stands_after(&table.words, text, at, end, number) {
            return Some(number);
        }
        next = table.links[number] as usize;
    }
    find_last_standing(&table.words, text, at, next)
}

// The longest word that stands in the text at index `at`, if it has two characters or more and ends after `end`.
fn find_pair(table: &MatchTable, text: &[Number], at: usize, end: usize) -> Option<Found>
    requires { at < length text.now }
    ensures { PairLongest (lexicon_of table.now.words) text.now (at + 1) (end + 1) (number_of result) (len_of result) }
{
    if text.len() <= at + 1 {
        return None;
    }
    let number = walk_pair(table, text, at, end)?;
    let len = table.words.word_len(number);
    if at + len <= end {
        return None;
    }
    Some(Found { number, len })
}

// The number of the one-character word at index `at`, if there is one.
fn find_single(table: &MatchTable, text: &[Number], at: usize) -> Option<usize>
    requires { at < length text.now }
    ensures { SingleFound (lexicon_of table.now.words).words text.now (at + 1) (plus_one result) }
{
    let c = number_at(text, at);
    let bucket = bucket_of_char(c);
    let mut next = table.heads[bucket] as usize;
    // A `while`: a chain of links.
    while let Some(number) = next.checked_sub(1) {
        let start = table.words.starts[number] as usize;
        if table.words.chars[start] as usize == c {
            return Some(number);
        }
        next = table.links[number] as usize;
    }
    None
}

// The longest word that stands in the text at index `at` and ends after `end`, where the last registered entry ends.
pub fn find_longest(table: &MatchTable, text: &[Number], at: usize, end: usize) -> Option<Found>
    requires { at < length text.now }
    ensures { FoundAt (lexicon_of table.now.words) text.now (at + 1) (end + 1) (number_of result) (len_of result) }
{
    let pair = find_pair(table, text, at, end);
    if pair.is_some() {
        return pair;
    }
    if at < end {
        return None;
    }
    let number = find_single(table, text, at)?;
    Some(Found { number, len: 1 })
}
