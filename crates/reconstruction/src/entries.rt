// Reconstruction: writes each entry's characters at its position in a text, line after line.
//
// A word is spelt by a part of the dictionary's characters, which a table of starts finds; a lone character is one store at each of its
// positions. Where entries disagree the last one written stays, and where there is none the text is unchanged: reception finds both by
// scanning the reconstructed text. The cost of an entry is the length of its key.
ghost use Rattle.std.specs.Prelude.{◌≡◌, ◌+◌, ◌≤◌, length};
ghost use Rattle.std.proofs.lemmas.List.Edits.{sets};
ghost use Rattle.spec.specs.Words.{spells};
ghost use Rattle.spec.specs.Index.{n_of, key_at, lines_in};
ghost use Rattle.models.specs.Entries.{flat};
ghost use Rattle.models.specs.Reception.{reconstruct, reconstruct_positions};
ghost use Rattle.laws.specs.Receive.PositionWalk.{LieWithin};
ghost use Rattle.dictionary.specs.Words.{lexicon_of};
ghost use Rattle.layout.specs.Lists.{IsPostingList};

use crate::line_map::fill_at;
use directory::lines::Directory;
use layout::keys::Key;
use layout::lines::{Lines, PostingList};
use width::{Number, from_char};

// Writes a string's characters into the text, from the index `at` on. A number may be wider than a character, so this is no copy of a
// slice.
fn reconstruct_string(string: &[u16], at: usize, text: &mut [Number])
    requires { at + length string.now ≤ length text.old }
    ensures { text.new ≡ sets text.old at string.now }
{
    for (i, character) in string.iter().enumerate() {
        text[at + i] = from_char(*character);
    }
}

// Writes a string at each of these positions.
fn reconstruct_positions(string: &[u16], positions: &[Number], text: &mut [Number])
    requires { LieWithin (length string.now) (length text.old) positions.now }
    ensures { text.new ≡ reconstruct_positions string.now positions.now text.old }
{
    for position in positions {
        reconstruct_string(string, *position as usize - 1, text);
    }
}

// Writes what the key of a line spells at each of the line's positions.
fn reconstruct_line(directory: &Directory, line: &PostingList, text: &mut [Number])
    requires len { length text.old ≡ n_of directory.now.index.now }
    requires line_is { IsPostingList directory.now.index.now line.now.number line.now.key line.now.positions.now }
    ensures { text.new ≡ reconstruct_positions (spells (lexicon_of directory.now.words) (key_at directory.now.index.now line.now.number))
        line.now.positions.now text.old }
{
    match line.key {
        Key::Word(number) => reconstruct_positions(
            directory.words.word(number),
            line.positions,
            text,
        ),
        Key::Lone(character) => fill_at(character, line.positions, text),
    }
}

// Writes every entry of a readable index into the text.
pub fn reconstruct_entries(directory: &Directory, text: &mut [Number])
    requires { length text.old ≡ n_of directory.now.index.now }
    ensures { text.new ≡ reconstruct (lexicon_of directory.now.words)
        (flat (lexicon_of directory.now.words) (lines_in directory.now.index.now)) text.old }
{
    for line in Lines::new(directory.index) {
        reconstruct_line(directory, &line, text);
    }
}
