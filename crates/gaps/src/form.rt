// The gap form of an index, which stores each position list as differences, and the index that a gap form restores to.
//
// Both directions are one function, generic over the form that is delivered: the same tests in the same order, and the same layout. Only
// the lists are read and written differently. Nothing is written before the last test.
ghost use Rattle.std.specs.Prelude.{◌≡◌, length};
ghost use Rattle.spec.specs.Dictionary.{longest_text};
ghost use Rattle.spec.specs.Gaps.{with_lists};
ghost use Rattle.spec.specs.Calls.{ToGapsSays, FromGapsSays};
ghost use Rattle.spec.specs.Refusals.{answer_of};
ghost use Rattle.models.specs.Gaps.{write_as};
ghost use Rattle.laws.specs.Gaps.GapParts.{Writable};
ghost use Rattle.laws.specs.Demands.GapCalls.{FormSays};

use crate::writing::WrittenForm;
use copying::slices::write_list;
use layout::fields::{key_count, line_start};
use readability::lists::{Gaps, Positions};
use readability::readability::admit_as;
use spec::Refusal;
use width::Number;

// Writes the numbers with each list in the other form. The lists go through the part of the output that begins after the directory.
fn write_form<F: WrittenForm>(index: &[Number], form: &mut [Number])
    requires { Writable F.as_gaps index.now × (length form.old ≡ length index.now) }
    ensures { form.new ≡ with_lists (write_as F.as_gaps) index.now }
{
    let first = line_start(key_count(index));
    write_list(&index[..first], 0, form);
    F::write_lists(index, first, &mut form[first..]);
}

// Writes the gap form of an index, or restores the index: tests dictionary and numbers, then the output, and writes.
fn put_form<F: WrittenForm>(
    chars: &[u16],
    lengths: &[u16],
    index: &[Number],
    output: &mut [Number],
) -> Result<usize, Refusal>
    ensures { FormSays longest_text F.as_gaps chars.now lengths.now index.now (answer_of result) output.old output.new }
{
    admit_as::<F>(chars, lengths, index)?;
    let count = index.len();
    if output.len() < count {
        return Err(Refusal::OutputShort);
    }
    write_form::<F>(index, &mut output[..count]);
    Ok(count)
}

// Writes the gap form of an index, and answers how many numbers it has, or the refusal: 1, 2, 3, 12, 5, 8.
pub fn to_gaps(
    chars: &[u16],
    lengths: &[u16],
    index: &[Number],
    output: &mut [Number],
) -> Result<usize, Refusal>
    ensures { ToGapsSays longest_text chars.now lengths.now index.now (answer_of result) output.old output.new }
{
    put_form::<Positions>(chars, lengths, index, output)
}

// Writes the index that a gap form restores to, and answers how many numbers it has, or the refusal: 1, 2, 3, 12, 5, 8.
pub fn from_gaps(
    chars: &[u16],
    lengths: &[u16],
    gaps: &[Number],
    output: &mut [Number],
) -> Result<usize, Refusal>
    ensures { FromGapsSays longest_text chars.now lengths.now gaps.now (answer_of result) output.old output.new }
{
    put_form::<Gaps>(chars, lengths, gaps, output)
}
