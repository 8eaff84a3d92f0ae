// Recovery of the text of a delivered index.
//
// It is reception, which leaves the reconstructed text in the work slice; the text is copied to the output once
// that is known to be long enough.
ghost use Rattle.std.specs.Prelude.{length};
ghost use Rattle.spec.specs.Dictionary.{longest_text, lexicon};
ghost use Rattle.spec.specs.Reception.{recovered};
ghost use Rattle.spec.specs.Calls.{recovery_refusal, Puts, RecoverSays};
ghost use Rattle.spec.specs.Refusals.{answer_of};

use crate::text::receive_text;
use copying::slices::write_chars;
use scanning::work::clear;
use spec::Refusal;
use width::Number;

// Receives an index and copies its text to the output. The work slice is not cleared.
fn write_text(
    chars: &[u16],
    lengths: &[u16],
    index: &[Number],
    output: &mut [u16],
    work: &mut [Number],
) -> Result<usize, Refusal>
    ensures { Puts (recovery_refusal longest_text chars.now lengths.now index.now (length output.old) (length work.old))
        (recovered (lexicon chars.now lengths.now) index.now) (answer_of result) output.old output.new }
{
    let n = receive_text(chars, lengths, index, work)?;
    if output.len() < n {
        return Err(Refusal::OutputShort);
    }
    write_chars(&work[..n], output);
    Ok(n)
}

// Recovers the text of an index: refusals 1, 2, 3, 12, 5, 7, 9, 8; accepted, it answers the length of the text.
pub fn recover(
    chars: &[u16],
    lengths: &[u16],
    index: &[Number],
    output: &mut [u16],
    work: &mut [Number],
) -> Result<usize, Refusal>
    ensures { RecoverSays longest_text chars.now lengths.now index.now (answer_of result) output.old output.new
        work.old work.new }
{
    let recovered = write_text(chars, lengths, index, output, work);
    clear(work);
    recovered
}
