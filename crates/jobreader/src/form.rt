// One form of the job sheet, on a line without its LF: the head, then a space and four upper-case hexadecimal digits for each character,
// then `)`. One pass over a line tests it, and one writes its characters.
ghost use Rattle.std.specs.Prelude.{◌≡◌, true, ◌+◌, ◌≤◌, ◌<◌, length, take, drop, IfSome, unwrap_or};
ghost use Rattle.basics.specs.Placed.{Wrote};
ghost use Rattle.spec.specs.Words.{same};
ghost use Rattle.spec.specs.JobSheet.{ends_well, is_form, characters, string_in};
ghost use Rattle.models.specs.JobSheet.{spaced_at, spaced_character};

use crate::digits::value_of;

// The character that a space and four digits spell, if that is what the five bytes are. A byte that is no digit ends the reading: digits
// that are read side by side compile to vector instructions, whose constants take read-only memory.
fn spaced_character(five: &[u8]) -> Option<u16>
    requires { length five.now ≡ 5 }
    ensures value { unwrap_or result 65536 ≡ spaced_character five.now 0 }
    ensures small { IfSome result (λ c. c < 65536) }
{
    if five[0] != b' ' {
        return None;
    }
    let a = u16::from(value_of(five[1])?);
    let b = u16::from(value_of(five[2])?);
    let c = u16::from(value_of(five[3])?);
    let d = u16::from(value_of(five[4])?);
    Some(((a * 16 + b) * 16 + c) * 16 + d)
}

// Whether the five bytes are a space and four digits.
fn is_spaced(five: &[u8]) -> bool
    requires { length five.now ≡ 5 }
    ensures { result ≡ spaced_at five.now 0 }
{
    spaced_character(five).is_some()
}

// Whether characters and `)` follow the head, and nothing else.
fn ends_well(rest: &[u8]) -> bool
    ensures { result ≡ ends_well rest.now }
{
    let mut fives = rest.chunks_exact(5);
    fives.remainder() == b")".as_slice() && fives.all(|five| is_spaced(five))
}

// Whether a line is the form with this head.
pub(crate) fn is_form(line: &[u8], head: &[u8]) -> bool
    requires { length head.now ≡ 5 }
    ensures { result ≡ is_form head.now line.now }
{
    line.starts_with(head) && ends_well(&line[5..])
}

// Writes the characters of a form, from the index `at` on. Answers where they end.
pub(crate) fn put_string(line: &[u8], out: &mut [u16], at: usize) -> usize
    requires { (5 ≤ length line.now) × (ends_well (drop 5 line.now) ≡ true) × (at + length (string_in line.now) ≤ length out.old) }
    ensures { Wrote (string_in line.now) at out.old result out.new }
{
    let mut end = at;
    for five in line[5..].chunks_exact(5) {
        out[end] = spaced_character(five).unwrap();
        end += 1;
    }
    end
}
