// Reception of a delivered index: whether some text has it.
//
// The work slice is cleared over its whole length on every path.
ghost use Rattle.spec.specs.Dictionary.{longest_text};
ghost use Rattle.spec.specs.Calls.{ReceiveSays};
ghost use Rattle.spec.specs.Refusals.{answer_of};

use crate::text::receive_text;
use scanning::work::clear;
use spec::Refusal;
use width::Number;

// Receives an index: refusals 1, 2, 3, 12, 5, 7, 9; accepted, it answers the length of the text.
pub fn receive(
    chars: &[u16],
    lengths: &[u16],
    index: &[Number],
    work: &mut [Number],
) -> Result<usize, Refusal>
    ensures { ReceiveSays longest_text chars.now lengths.now index.now (answer_of result) work.old work.new }
{
    let received = receive_text(chars, lengths, index, work);
    clear(work);
    received
}
