// Admission of a dictionary: lines 1, 2, 3 and 12 of the refusal table, in that order. What is admitted is one record with that fact.
//
// One pass over the lengths has no branch in it; one pass compares each word with the next. Neighbours in a dictionary often share a first
// character, and a loop over the shared ones is mispredicted at nearly every word. So the first three characters of each word are packed
// into one number, its code, and two neighbours are told apart by one comparison; only words with equal codes are compared
// character by character. Full-width forms are looked for in all characters at once. The cost is linear in the characters lent.
ghost use Rattle.std.specs.Prelude.{◌≡◌, ◌&&◌, cond, ◌+◌, ◌≤◌, ◌<◌, eqb, length, IfOk};
ghost use Rattle.spec.specs.Dictionary.{lengths_good, total, words_from, word_before, ascend, dictionary_refusal};
ghost use Rattle.spec.specs.Refusals.{number_of};
ghost use Rattle.laws.specs.Dictionary.WordCode.{part, code, ReadsThree, Neighbours};
ghost use Rattle.laws.specs.Dictionary.Admission.{Fitting};
ghost use Rattle.laws.specs.Dictionary.Lexicon.{IsAdmitted};

use folding::forms::holds_full_width;
use spec::Refusal;

// Whether every length is 1 to 32 and they add up to `count`.
fn lengths_fit(lengths: &[u16], count: usize) -> bool
    requires { length lengths.now ≤ 4096 }
    ensures { result ≡ (lengths_good lengths.now && eqb (total lengths.now) count) }
{
    let mut sum: u32 = 0;
    let mut good = true;
    for &len in lengths {
        good = good & (1 <= len) & (len <= 32);
        sum += u32::from(len);
    }
    good & (sum as usize == count)
}

// A character's digit in a code: one more than its number, or 0 where the word has ended.
fn digit(present: bool, character: u16) -> u64
    ensures value { result ≡ cond present (character + 1) 0 }
    ensures small { result ≤ 65536 }
{
    let number = u64::from(character) + 1;
    if present { number } else { 0 }
}

// The code of the word from `at` to `end`: its first three characters as one number. `second` and `third` are the indices of the two after
// the first, if the word has them; a read past the word is not used.
fn code_at(chars: &[u16], at: usize, end: usize, second: usize, third: usize) -> u64
    requires { ReadsThree chars.now at end second third }
    ensures { result ≡ code (part chars.now at end) }
{
    let len = end - at;
    let a = digit(true, chars[at]);
    let b = digit(1 < len, chars[second]);
    let c = digit(2 < len, chars[third]);
    (a * 131072 + b) * 131072 + c
}

// The code of a word near the end of the characters, with no read past the last one.
fn last_code(chars: &[u16], at: usize, end: usize) -> u64
    requires { (at < end) × (end ≤ length chars.now) }
    ensures { result ≡ code (part chars.now at end) }
{
    let last = chars.len() - 1;
    code_at(chars, at, end, (at + 1).min(last), (at + 2).min(last))
}

// The code of the word from `at` to `end`: its first three characters as one number.
fn prefix_code(chars: &[u16], at: usize, end: usize) -> u64
    requires { (at < end) × (end ≤ length chars.now) }
    ensures { result ≡ code (part chars.now at end) }
{
    let third = at + 2;
    if third < chars.len() {
        return code_at(chars, at, end, at + 1, third);
    }
    last_code(chars, at, end)
}

// Whether one word comes before another, character by character, a proper prefix first. `cmp` passes equal characters four at a time, which
// `<` does not.
fn comes_before(left: &[u16], right: &[u16]) -> bool
    ensures { result ≡ word_before left.now right.now }
{
    left.cmp(right).is_lt()
}

// Whether the word from `at` to `next` comes before the one from `next` to `end`. Codes that differ decide: by two tests, since a `match`
// on their `cmp` makes admission a third slower.
fn neighbours_ascend(
    chars: &[u16],
    at: usize,
    next: usize,
    end: usize,
    at_code: u64,
    next_code: u64,
) -> bool
    requires { Neighbours chars.now at next end at_code next_code }
    ensures { result ≡ word_before (part chars.now at next) (part chars.now next end) }
{
    if at_code < next_code {
        return true;
    }
    if next_code < at_code {
        return false;
    }
    comes_before(&chars[at..next], &chars[next..end])
}

// Whether the words ascend strictly.
fn words_ascend(chars: &[u16], lengths: &[u16]) -> bool
    requires { Fitting chars.now lengths.now }
    ensures { result ≡ ascend (words_from lengths.now chars.now) }
{
    let Some((first, rest)) = lengths.split_first() else {
        return true;
    };
    let mut at = 0;
    let mut next = usize::from(*first);
    let mut at_code = prefix_code(chars, at, next);
    for len in rest {
        let end = next + usize::from(*len);
        let next_code = prefix_code(chars, next, end);
        if !neighbours_ascend(chars, at, next, end, at_code, next_code) {
            return false;
        }
        at = next;
        next = end;
        at_code = next_code;
    }
    true
}

// An admitted dictionary: all characters run together, and the length of each word.
#[derive(Clone, Copy)]
pub struct Dictionary<'a> {
    pub chars: &'a [u16],
    pub lengths: &'a [u16],
    ghost accepted: { dictionary_refusal chars.now lengths.now ≡ 0 },
    ghost admitted: { IsAdmitted chars.now lengths.now },
}

// Admits a dictionary: its refusal is the first line of 1, 2, 3 and 12 that it meets.
pub fn admit<'a>(chars: &'a [u16], lengths: &'a [u16]) -> Result<Dictionary<'a>, Refusal>
    ensures number { number_of result ≡ dictionary_refusal chars.now lengths.now }
    ensures lent { IfOk result (λ d. (d.chars ≡ chars.entry) × (d.lengths ≡ lengths.entry)) }
{
    if 4096 < lengths.len() {
        return Err(Refusal::DictionaryTooLarge);
    }
    if 65535 < chars.len() {
        return Err(Refusal::DictionaryTooLarge);
    }
    if !lengths_fit(lengths, chars.len()) {
        return Err(Refusal::LengthsWrong);
    }
    if !words_ascend(chars, lengths) {
        return Err(Refusal::WordsDisordered);
    }
    if holds_full_width(chars) {
        return Err(Refusal::FullWidthForm);
    }
    Ok(Dictionary { chars, lengths })
}
