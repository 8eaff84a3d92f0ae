// Writes the lists of a gap form, and the position lists that one restores to: each form of a list is written in the other.
//
// Most lists are short, so a loop for each list costs more than the numbers in it. All lists are therefore written in one pass as if they
// were one, and a walk over the directory then corrects the first number of each. For gaps the pass takes differences. For positions it is
// a prefix sum that begins anew with each list, by masks: 0 at the first gap of a list, all ones at the others.
ghost use Rattle.std.specs.Prelude.{◌≡◌, ℕ, suc, ◌+◌, ◌*◌, ◌-◌, ◌≤◌, length, get_or, drop};
ghost use Rattle.spec.specs.Index.{header, keys_of};
ghost use Rattle.spec.specs.Gaps.{gaps_after, lists_from};
ghost use Rattle.models.specs.Gaps.{by_pairs, first_apart, masked_sums, carry, pair_as, first_as, write_as};
ghost use Rattle.laws.specs.Gaps.GapParts.{Writable};

use layout::fields::key_count;
use layout::lines::next_line;
use readability::lists::{Gaps, ListForm, Positions};
use width::Number;

// The mask that lets a sum through: every bit is set.
const ALL_ONES: Number = !0;

// The mask that lets none through: no bit is set.
const NO_ONES: Number = 0;

// Writes the distance of each number of `run` from the one before it: 0 where it is not after it, which only the first of a list may be.
fn write_distances(run: &[Number], part: &mut [Number])
    requires { length run.now ≡ suc (length part.old) }
    ensures { part.new ≡ gaps_after (get_or run.now 0 0) (drop 1 run.now) }
{
    for i in 0..part.len() {
        part[i] = run[i + 1].saturating_sub(run[i]);
    }
}

// What becomes of the first number of a list, where all lists are written as if they were one.
trait FirstNumber: ListForm {
    fn first_number(number: Number) -> Number
        ensures { result ≡ first_as Self.as_gaps number };
}

impl FirstNumber for Positions {
    fn first_number(number: Number) -> Number {
        number
    }
}

impl FirstNumber for Gaps {
    fn first_number(_number: Number) -> Number {
        NO_ONES
    }
}

// Corrects the first number of each list, where all lists are written as if they were one. The numbers start at `first`.
fn put_firsts<F: FirstNumber>(index: &[Number], first: usize, part: &mut [Number])
    requires { Writable F.as_gaps index.now × (first ≡ header + 3 * keys_of index.now) ×
        ((b : ℕ) × (part.old ≡ by_pairs (pair_as F.as_gaps) b (drop (header + 3 * keys_of index.now) index.now))) }
    ensures { part.new ≡ lists_from (first_apart (first_as F.as_gaps) (pair_as F.as_gaps)) (keys_of index.now) 0
        index.now (drop (header + 3 * keys_of index.now) index.now) }
{
    let mut at = 0;
    // No `Lines`, which count from the start of the index.
    for i in 0..key_count(index) {
        let line = next_line(index, i, at);
        part[at] = F::first_number(index[first + at]);
        at = line.to;
    }
}

// Adds gaps up; each sum overwrites its mask.
fn add_up(gaps: &[Number], part: &mut [Number])
    requires { (length part.old ≡ length gaps.now) × ((j : ℕ) → get_or (masked_sums 0 part.old gaps.now) j 0 ≤ carry) }
    ensures { part.new ≡ masked_sums 0 part.old gaps.now }
{
    let mut sum: Number = 0;
    for (i, gap) in gaps.iter().enumerate() {
        sum = (sum & part[i]) + *gap;
        part[i] = sum;
    }
}

// A form of a list, which is written in the other: gaps for positions, and positions for gaps.
pub(crate) trait WrittenForm: ListForm {
    // Writes every list in the other form. The numbers start at `first`.
    fn write_lists(index: &[Number], first: usize, part: &mut [Number])
        requires { Writable Self.as_gaps index.now × (first ≡ header + 3 * keys_of index.now) ×
            (length part.old ≡ length (drop (header + 3 * keys_of index.now) index.now)) }
        ensures { part.new ≡ lists_from (write_as Self.as_gaps) (keys_of index.now) 0 index.now
            (drop (header + 3 * keys_of index.now) index.now) };
}

// Positions become gaps: the distances of all positions as one list, and of each list the first position.
impl WrittenForm for Positions {
    fn write_lists(index: &[Number], first: usize, part: &mut [Number]) {
        let before = first - 1;
        write_distances(&index[before..], part);
        put_firsts::<Positions>(index, first, part);
    }
}

// Gaps become positions: masks that let a sum through but at the first gap of each list, and the sums under them.
impl WrittenForm for Gaps {
    fn write_lists(index: &[Number], first: usize, part: &mut [Number]) {
        part.fill(ALL_ONES);
        put_firsts::<Gaps>(index, first, part);
        add_up(&index[first..], part);
    }
}
