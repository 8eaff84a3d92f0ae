// The work slice, which is all zeros after every call, refused or not. Clearing it is one store a number, over its whole length.
ghost use Rattle.std.specs.Prelude.{◌≡◌};
ghost use Rattle.spec.specs.Calls.{zeros};

use width::Number;

// Sets the whole slice to zeros.
pub fn clear(work: &mut [Number])
    ensures { work.new ≡ zeros work.old }
{
    work.fill(0);
}
