// The job sheet, line by line.
//
// All characters of its forms are run together in one slice, and their lengths are in another: the words, then the text, then
// the finds. A form takes seven bytes and five for each character, so a seventh of the sheet's length is enough for the lengths
// and a fifth for the characters.
ghost use Rattle.std.specs.Prelude.{◌≡◌, ◌≤◌, ◌<◌, ◌&&◌, true, false, length, IfSome, MatchOption, unwrap_or};
ghost use Rattle.spec.specs.JobSheet.{in_form, in_counts};
ghost use Rattle.laws.specs.JobSheet.LineReading.{LineEnd, FormEnd};
ghost use Rattle.laws.specs.JobSheet.SheetReading.{Room, FormsGot};
ghost use Rattle.laws.specs.JobSheet.WholeSheet.{Enough, SheetRead};

use crate::form::{is_form, put_string};

// Where the LF of the line that starts at `at` is, if it has one.
fn line_end(sheet: &[u8], at: usize) -> Option<usize>
    requires { at ≤ length sheet.now }
    ensures within { IfSome result (λ end. end < length sheet.now) }
    ensures ended { LineEnd sheet.now at (unwrap_or result (length sheet.now)) }
{
    let len = sheet[at..].iter().position(|byte| *byte == b'\n')?;
    Some(at + len)
}

// Where the LF of the form with this head that starts at `at` is, if there is such a form.
fn form_end(sheet: &[u8], at: usize, head: &[u8]) -> Option<usize>
    requires { (at ≤ length sheet.now) × (length head.now ≡ 5) }
    ensures within { IfSome result (λ end. end < length sheet.now) }
    ensures ended { FormEnd head.now sheet.now at (unwrap_or result (length sheet.now)) }
{
    let end = line_end(sheet, at)?;
    is_form(&sheet[at..end], head).then_some(end)
}

// Where reading goes on: the index of the next byte, and how many characters and forms are read so far.
#[derive(Clone, Copy)]
pub struct Cursor {
    pub at: usize,
    pub used: usize,
    pub count: usize,
}

// Reads all forms with this head that follow one another from a cursor on.
fn read_forms(
    sheet: &[u8],
    head: &[u8],
    from: Cursor,
    chars: &mut [u16],
    lengths: &mut [u16],
) -> Cursor
    requires { Room head.now sheet.now from.at from.used from.count chars.old lengths.old × (length head.now ≡ 5) }
    ensures { FormsGot head.now sheet.now from.at from.used from.count chars.old lengths.old result.at result.used
        result.count chars.new lengths.new }
{
    let Cursor {
        mut at,
        mut used,
        mut count,
    } = from;
    // A `while`: as many forms as follow.
    while let Some(end) = form_end(sheet, at, head) {
        let next = put_string(&sheet[at..end], chars, used);
        lengths[count] = (next - used) as u16;
        at = end + 1;
        used = next;
        count += 1;
    }
    Cursor { at, used, count }
}

// The parts of a sheet: how many words there are, and characters in them; how many characters of text; how many finds. Its words are the
// first `dictionary` characters and the first `words` lengths, its text the next `text` characters and one length, its finds what follows.
#[derive(Drop)]
pub struct Parts {
    pub words: usize,
    pub dictionary: usize,
    pub text: usize,
    pub finds: usize,
}

// Reads the words, the text and the finds of a sheet, if its form and counts are right.
pub(crate) fn read_sheet(sheet: &[u8], chars: &mut [u16], lengths: &mut [u16]) -> Option<Parts>
    requires { Enough sheet.now chars.old lengths.old }
    ensures { MatchOption result ((in_form sheet.now && in_counts sheet.now) ≡ false)
        (λ parts. SheetRead sheet.now chars.old lengths.old true parts.words parts.dictionary parts.text parts.finds
        chars.new lengths.new) }
{
    let start = Cursor {
        at: 0,
        used: 0,
        count: 0,
    };
    let words = read_forms(sheet, b"(word", start, chars, lengths);
    let texts = read_forms(sheet, b"(text", words, chars, lengths);
    let finds = read_forms(sheet, b"(find", texts, chars, lengths);
    let text = texts.used - words.used;
    let found = finds.count - texts.count;
    let one_text = texts.count - words.count == 1;
    let good = one_text
        & (finds.at == sheet.len())
        & (words.count <= 200)
        & (text <= 2000)
        & (found <= 50);
    good.then_some(Parts {
        words: words.count,
        dictionary: words.used,
        text,
        finds: found,
    })
}
