// Width folding: full-width forms, the characters FF01 to FF5E, are each replaced by the character FEE0 lower.
//
// The loops have no branch that depends on a character, so that they compile to vector instructions and run at the speed of memory.
ghost use Rattle.std.specs.Prelude.{◌≡◌, false, ℕ, ◌-◌, ◌≤◌, ◌<◌, length, get_or, slice_index_or, take};
ghost use Rattle.spec.specs.Replaced.{is_full_width, replaced_char, replaced, holds_full_width};
ghost use Rattle.spec.specs.Calls.{in_front};

use width::Number;

// The first and the last full-width form.
pub const FIRST_FORM: u16 = 0xFF01;

pub const LAST_FORM: u16 = 0xFF5E;

// Whether a character is a full-width form.
fn is_full_width(character: u16) -> bool
    ensures { result ≡ is_full_width character }
{
    (FIRST_FORM <= character) & (character <= LAST_FORM)
}

// What a character is replaced by: itself where it is no full-width form.
pub fn replace(character: u16) -> u16
    ensures { result ≡ replaced_char character }
{
    if is_full_width(character) {
        character - 0xFEE0
    } else {
        character
    }
}

// Whether a full-width form is one of the characters, by comparing each with both bounds.
fn find_full_width(text: &[u16]) -> bool
    ensures { result ≡ holds_full_width text.now }
{
    let mut held = false;
    for character in text {
        held |= is_full_width(*character);
    }
    held
}

// The bitwise or of how much each character exceeds FF00, which every full-width form does: 0 only if none is one of the characters.
fn excesses(text: &[u16]) -> u16
    ensures { result ≡ 0 → holds_full_width text.now ≡ false }
{
    let mut all = 0;
    for character in text {
        all |= character.saturating_sub(0xFF00);
    }
    all
}

// Whether a full-width form is one of the characters. Few characters exceed FF00, and to see that none does costs less.
pub fn holds_full_width(text: &[u16]) -> bool
    ensures { result ≡ holds_full_width text.now }
{
    excesses(text) != 0 && find_full_width(text)
}

// Writes the replaced text to the start of a slice, of any numbers that a character converts to; the rest stays.
fn replace_into<T: From<u16> + Copy>(text: &[u16], slots: &mut [T])
    requires { length text.now ≤ length slots.old }
    ensures front { (k : ℕ) (d : T) → k < length text.now →
        T.from_gives (replaced_char (get_or text.now k 0)) (slice_index_or slots.new k d) }
    ensures rest { (k : ℕ) (d : T) → length text.now ≤ k → slice_index_or slots.new k d ≡ slice_index_or slots.old k d }
{
    for (i, character) in text.iter().enumerate() {
        slots[i] = T::from(replace(*character));
    }
}

// Writes the replaced text, as numbers, to the start of a slice.
pub fn replace_as_numbers(text: &[u16], numbers: &mut [Number])
    requires { length text.now ≤ length numbers.old }
    ensures { numbers.new ≡ in_front (replaced text.now) numbers.old }
{
    replace_into(text, numbers);
}

// A search string, replaced, at the start of an array that is long enough for any.
pub fn replaced_string(string: &[u16]) -> [u16; 256]
    requires { length string.now ≤ 256 }
    ensures { take (length string.now) result ≡ replaced string.now }
{
    let mut own = [0u16; 256];
    replace_into(string, &mut own);
    own
}
