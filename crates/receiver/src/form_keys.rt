// Full-width forms among the lone keys of an index: the text that an index is of has such a form exactly if a lone key is one.
//
// Keys ascend, words first, so the walk starts at the last line and ends at the first character or word below the forms. It costs one line
// more than there are lone characters above FF5E.
ghost use Rattle.std.specs.Prelude.{◌≡◌};
ghost use Rattle.spec.specs.Index.{lines_in};
ghost use Rattle.models.specs.Reception.{some_form_key};
ghost use Rattle.laws.specs.Receive.FormKeys.{OrderedKeys};

use folding::forms::{FIRST_FORM, LAST_FORM};
use layout::fields::{key_count, kind_at, value_at};
use width::Number;

// Whether a lone key of the directory is a full-width form.
pub(crate) fn has_form_key(index: &[Number]) -> bool
    requires { OrderedKeys index.now }
    ensures { result ≡ some_form_key (lines_in index.now) }
{
    for line in (0..key_count(index)).rev() {
        if kind_at(index, line) == 0 {
            return false;
        }
        let value = value_at(index, line);
        if value < FIRST_FORM as usize {
            return false;
        }
        if value <= LAST_FORM as usize {
            return true;
        }
    }
    false
}
