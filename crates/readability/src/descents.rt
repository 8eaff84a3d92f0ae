// Whether all position lists of an index ascend, by counting descents: positions that do not exceed the number before them.
//
// A list ascends from 1 exactly if it has no descent after a 0. So all lists ascend exactly if the only descents among all positions are
// those to the first position of a list, and none of these is 0. A walk over the directory can count those, and one pass counts all; no
// walk calls the pass yet. Lists are short, and a loop for each list would cost a mispredicted branch where it ends; the pass has no branch
// that depends on a number and compiles to vector instructions. A gap form is tested in the same way: its descents are the gaps that are 0.
ghost use Rattle.std.specs.Prelude.{◌≡◌, ◌&&◌, ◌+◌, ◌*◌, ◌≤◌, ◌<◌, leb, eqb, length};
ghost use Rattle.spec.specs.Index.{header, keys_of};
ghost use Rattle.models.specs.Readability.{floor_of, one_if, descents};
ghost use Rattle.laws.specs.Readable.Descents.{all_descents, at_first};

use crate::lists::ListForm;
use layout::fields::{key_count, line_start};
use width::Number;

// How many numbers are compared before their descents are added up: as many as 16 bits count.
const BLOCK: usize = 65535;

// 1 if a number does not exceed what it has to.
fn descent<F: ListForm>(before: Number, number: Number) -> u16
    ensures { result ≡ one_if (leb number (floor_of F.as_gaps before)) }
{
    u16::from(number <= F::floor_of(before))
}

// The descents of a run that 16 bits count.
fn count_block<F: ListForm>(run: &[Number]) -> usize
    requires { length run.now ≤ 65536 }
    ensures { result ≡ descents F.as_gaps run.now }
{
    let mut count: u16 = 0;
    for pair in run.windows(2) {
        count += descent::<F>(pair[0], pair[1]);
    }
    count as usize
}

// The descents of a run. Blocks share a number, the last of one and the first of the next.
fn count_descents<F: ListForm>(run: &[Number]) -> usize
    ensures { result ≡ descents F.as_gaps run.now }
{
    let mut count = 0;
    for at in (0..run.len()).step_by(BLOCK) {
        let end = run.len().min(at + BLOCK + 1);
        count += count_block::<F>(&run[at..end]);
    }
    count
}

// 1 if the position at `at`, the first of its list, is a descent and not 0.
pub(crate) fn first_descent<F: ListForm>(index: &[Number], at: usize) -> usize
    requires { (1 ≤ at) × (at < length index.now) }
    ensures { result ≡ at_first F.as_gaps index.now at }
{
    let first = index[at];
    usize::from((0 < first) & (first <= F::floor_of(index[at - 1])))
}

// Whether the positions end with the index, where those of the last line end at `at`, and have `found` descents.
pub(crate) fn lists_ascend<F: ListForm>(index: &[Number], at: usize, found: usize) -> bool
    requires { (header ≤ length index.now) × (header + 3 * keys_of index.now ≤ length index.now) }
    ensures { result ≡ (eqb at (length index.now) && eqb (all_descents F.as_gaps index.now) found) }
{
    if at != index.len() {
        return false;
    }
    let before = line_start(key_count(index)) - 1;
    count_descents::<F>(&index[before..]) == found
}
