// Whether every entry of an index stands in a text.
//
// A string is compared character by character at each of its positions. Where two positions of one key lie closer than the key is
// long, the string can stand at both only if their distance is a period of it; if it is, the first characters at the later
// position are right already, and only as many as the distance are left to compare. So a word of equal characters at every
// position costs one comparison a position.
ghost use Rattle.std.specs.Prelude.{◌≡◌, true, [], ◌∷◌, suc, ◌+◌, ◌-◌, ◌≤◌, length};
ghost use Rattle.basics.specs.Bools.{Reflects};
ghost use Rattle.spec.specs.Words.{spells};
ghost use Rattle.spec.specs.Index.{n_of, key_at, lines_in};
ghost use Rattle.laws.specs.Text.Strings.{Stand};
ghost use Rattle.laws.specs.Text.Facts.{Rise, AllStand};
ghost use Rattle.laws.specs.Receive.PositionWalk.{LieWithin};
ghost use Rattle.laws.specs.Receive.EntriesMatch.{EqualPart, Period, StandEach};
ghost use Rattle.dictionary.specs.Words.{lexicon_of};
ghost use Rattle.layout.specs.Lists.{IsPostingList};

use directory::lines::Directory;
use layout::keys::Key;
use layout::lines::{Lines, PostingList};
use width::{Number, from_char};

// Whether the characters of a string from its index `from` on are those of the text, if the string starts at the text's index `at`. By
// `same_run` of copying, which compares from the last one, a search in a text of equal characters takes a sixth longer.
fn equal_from(string: &[u16], from: usize, text: &[Number], at: usize) -> bool
    requires { at + length string.now ≤ length text.now }
    ensures { Reflects result (EqualPart string.now from (length string.now) text.now at) }
{
    (from..string.len()).all(|i| from_char(string[i]) == text[at + i])
}

// A period of the string: `step` if it is one, where the string starts with its own characters from there on, else the known one.
fn period_of(string: &[u16], known: usize, step: usize) -> usize
    requires { Period string.now known }
    ensures { Period string.now result }
{
    if step != known && step < string.len() && string.starts_with(&string[step..]) {
        step
    } else {
        known
    }
}

// Whether a string stands at `position`, which lies `step` after a position where it stands.
fn stands_again(
    string: &[u16],
    period: usize,
    step: usize,
    position: usize,
    text: &[Number],
) -> bool
    requires { Period string.now period × (step ≤ position) × Stand string.now text.now (position - step) ×
        (position + length string.now ≤ suc (length text.now)) }
    ensures { Reflects result (Stand string.now text.now position) }
{
    if step == period {
        equal_from(string, string.len() - period, text, position - 1)
    } else {
        equal_from(string, 0, text, position - 1)
    }
}

// Whether a string stands at each of these positions.
fn stands_at_each(string: &[u16], positions: &[Number], text: &[Number]) -> bool
    requires { LieWithin (length string.now) (length text.now) positions.now × (1 ≤ length positions.now) × Rise 1 positions.now }
    ensures { Reflects result (StandEach string.now text.now positions.now) }
{
    if !equal_from(string, 0, text, positions[0] as usize - 1) {
        return false;
    }
    let mut period = string.len();
    for pair in positions.windows(2) {
        let position = pair[1] as usize;
        let step = position - pair[0] as usize;
        period = period_of(string, period, step);
        if !stands_again(string, period, step, position, text) {
            return false;
        }
    }
    true
}

// Whether the text has a character at each of these positions.
fn holds_at_each(character: usize, positions: &[Number], text: &[Number]) -> bool
    requires { LieWithin 1 (length text.now) positions.now }
    ensures { Reflects result (StandEach (character ∷ []) text.now positions.now) }
{
    positions.iter().all(|position| text[*position as usize - 1] as usize == character)
}

// Whether what the key of a line spells stands at each of the line's positions.
fn line_stands(directory: &Directory, line: &PostingList, text: &[Number]) -> bool
    requires len { length text.now ≡ n_of directory.now.index.now }
    requires line_is { IsPostingList directory.now.index.now line.now.number line.now.key line.now.positions.now }
    ensures { Reflects result (StandEach (spells (lexicon_of directory.now.words) (key_at directory.now.index.now line.now.number))
        text.now line.now.positions.now) }
{
    match line.key {
        Key::Word(number) => stands_at_each(directory.words.word(number), line.positions, text),
        Key::Lone(character) => holds_at_each(character, line.positions, text),
    }
}

// Whether every entry of a readable index stands in a text.
pub(crate) fn entries_match(directory: &Directory, text: &[Number]) -> bool
    requires { length text.now ≡ n_of directory.now.index.now }
    ensures { Reflects result (AllStand (lexicon_of directory.now.words) (lines_in directory.now.index.now) text.now) }
{
    for line in Lines::new(directory.index) {
        if !line_stands(directory, &line, text) {
            return false;
        }
    }
    true
}
