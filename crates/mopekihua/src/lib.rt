// The library's API: every public operation once, for C and Rust to link.
//
// No operation has a `requires`. Each contract fixes the answer and the final content of every slice lent to be written, for refused input
// too; a slice lent to be read stays unchanged by its type. A refusal is the number of the first line that is met, in the order given.
// Texts and search strings are replaced first: each full-width form, FF01 to FF5E, by the character FEE0 lower. What is lent as characters
// holds characters, by its type too: building, reception and recovery say so in a clause of their own, since the demands
// (`spec/specs/Demands.antt`) ask for it.
#![tactic(auto)]

ghost use Rattle.std.specs.Prelude.{◌≡◌, true};
ghost use Rattle.spec.specs.Dictionary.{longest_text, all_chars};
ghost use Rattle.spec.specs.Calls.{AdmitSays, BuildSays, CutSays, FirstSays, ReceiveSays, RecoverSays, SearchSays, TallySays};
ghost use Rattle.spec.specs.Calls.{FromGapsSays, ToGapsSays};

use spec::{Answer, FirstAnswer, TallyAnswer};

// Admits a dictionary, lent as all characters run together and a list of lengths. Refusals 1, 2, 3, 12; accepted,
// it answers the number of words.
#[unsafe(no_mangle)]
pub extern "C" fn mopekihua_admit(chars: &[u16], lengths: &[u16]) -> Answer
    ensures { AdmitSays chars.now lengths.now result }
{
    let admitted = dictionary::admission::admit(chars, lengths);
    Answer::from(admitted.map(|dictionary| dictionary.lengths.len()))
}

// Builds the index of a text, replaced. Refusals 1, 2, 3, 12, 4, 7, 8, which leave the output unchanged; accepted, it answers the count of
// numbers written to the start of the output. The work slice is all zeros after every call.
#[unsafe(no_mangle)]
pub extern "C" fn mopekihua_build(
    chars: &[u16],
    lengths: &[u16],
    text: &[u16],
    output: &mut [u16],
    work: &mut [u16],
) -> Answer
    ensures build_says { BuildSays longest_text chars.now lengths.now text.now result output.old output.new
        work.old work.new }
    ensures chars_value { (all_chars chars.now ≡ true) × (all_chars text.now ≡ true) }
{
    Answer::from(builder::build::build(chars, lengths, text, output, work))
}

// Receives an index: tests whether some replaced text of its stated length has it. Refusals 1, 2, 3, 12, 5, 7, 9; accepted, it answers that
// length. The work slice is all zeros after every call.
#[unsafe(no_mangle)]
pub extern "C" fn mopekihua_receive(
    chars: &[u16],
    lengths: &[u16],
    index: &[u16],
    work: &mut [u16],
) -> Answer
    ensures receive_says { ReceiveSays longest_text chars.now lengths.now index.now result work.old
        work.new }
    ensures chars_value { all_chars chars.now ≡ true }
{
    Answer::from(receiver::receive::receive(chars, lengths, index, work))
}

// Recovers the replaced text of an index. Refusals 1, 2, 3, 12, 5, 7, 9, 8, which leave the output unchanged; accepted, it answers how many
// characters are written to the start of the output. The work slice is all zeros after every call.
#[unsafe(no_mangle)]
pub extern "C" fn mopekihua_recover(
    chars: &[u16],
    lengths: &[u16],
    index: &[u16],
    output: &mut [u16],
    work: &mut [u16],
) -> Answer
    ensures recover_says { RecoverSays longest_text chars.now lengths.now index.now result output.old
        output.new work.old work.new }
    ensures chars_value { all_chars chars.now ≡ true }
{
    Answer::from(receiver::recover::recover(chars, lengths, index, output, work))
}

// Finds a string, replaced, in an index, received or not, without the text. Refusals 1, 2, 3, 12, 5, 6, 8, which leave the output
// unchanged; accepted, it answers how many positions are written to the start of the output, ascending, each once.
#[unsafe(no_mangle)]
pub extern "C" fn mopekihua_search(
    chars: &[u16],
    lengths: &[u16],
    index: &[u16],
    string: &[u16],
    output: &mut [u16],
) -> Answer
    ensures { SearchSays longest_text chars.now lengths.now index.now string.now result
        output.old output.new }
{
    Answer::from(searcher::search::search_index(chars, lengths, index, string, output))
}

// The first position that a search for a string finds in an index, received or not; 0 where it finds none. Refusals 1, 2, 3, 12, 5, 6.
// No slice is written, so 8 cannot occur.
#[unsafe(no_mangle)]
pub extern "C" fn mopekihua_first(
    chars: &[u16],
    lengths: &[u16],
    index: &[u16],
    string: &[u16],
) -> FirstAnswer
    ensures { FirstSays longest_text chars.now lengths.now index.now string.now result }
{
    FirstAnswer::from(searcher::first::first_index(chars, lengths, index, string))
}

// Cuts an index down to the keys that bear on a string, replaced. Refusals 1, 2, 3, 12, 5, 6, 8, which leave the output unchanged;
// accepted, it answers the count of numbers written to the start of the output.
#[unsafe(no_mangle)]
pub extern "C" fn mopekihua_cut(
    chars: &[u16],
    lengths: &[u16],
    index: &[u16],
    string: &[u16],
    output: &mut [u16],
) -> Answer
    ensures { CutSays longest_text chars.now lengths.now index.now string.now result output.old
        output.new }
{
    Answer::from(cutter::cut::cut_index(chars, lengths, index, string, output))
}

// Tallies an index by word length. Refusals 1, 2, 3, 12, 5, with 32 zeros; accepted, it answers the number of entries, and under l - 1
// how many of them have length l.
#[unsafe(no_mangle)]
pub extern "C" fn mopekihua_tally(chars: &[u16], lengths: &[u16], index: &[u16]) -> TallyAnswer
    ensures { TallySays longest_text chars.now lengths.now index.now result }
{
    TallyAnswer::from(postings::tallying::tally(chars, lengths, index))
}

// Writes the gap form of an index: under each key the first position stays, and each later one becomes its distance from the one before.
// Refusals 1, 2, 3, 12, 5, 8, which leave the output unchanged; accepted, it answers the count of numbers written to the start of the
// output, as many as the index has.
#[unsafe(no_mangle)]
pub extern "C" fn mopekihua_to_gaps(
    chars: &[u16],
    lengths: &[u16],
    index: &[u16],
    output: &mut [u16],
) -> Answer
    ensures { ToGapsSays longest_text chars.now lengths.now index.now result output.old
        output.new }
{
    Answer::from(gaps::form::to_gaps(chars, lengths, index, output))
}

// Restores an index from its gap form, the inverse. Refusals 1, 2, 3, 12, 5, 8, which leave the output unchanged, 5 where what is lent
// restores to no readable index; accepted, it answers the count of numbers written to the start of the output.
#[unsafe(no_mangle)]
pub extern "C" fn mopekihua_from_gaps(
    chars: &[u16],
    lengths: &[u16],
    gaps: &[u16],
    output: &mut [u16],
) -> Answer
    ensures { FromGapsSays longest_text chars.now lengths.now gaps.now result output.old
        output.new }
{
    Answer::from(gaps::form::from_gaps(chars, lengths, gaps, output))
}
