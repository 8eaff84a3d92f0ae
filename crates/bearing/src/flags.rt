// Sets the flags of lines: of a list of them, or of a run.
ghost use Rattle.std.specs.Prelude.{◌≤◌, length};
ghost use Rattle.laws.specs.Cut.Flagging.{Ones, AllBelow, OnesAt};

// Flags the listed lines.
pub(crate) fn flag_list(lines: &[u16], flags: &mut [u8])
    requires { AllBelow lines.now (length flags.old) }
    ensures { OnesAt lines.now flags.old flags.new }
{
    for line in lines {
        flags[*line as usize] = 1;
    }
}

// Flags the lines `from` to `to` - 1.
pub(crate) fn flag_run(from: usize, to: usize, flags: &mut [u8])
    requires { (from ≤ to) × (to ≤ length flags.old) }
    ensures { Ones from to flags.old flags.new }
{
    flags[from..to].fill(1);
}
