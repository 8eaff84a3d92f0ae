// What a sheet that is not refused asks for, in the slices that it was read into.
ghost use Rattle.laws.specs.JobSheet.AcceptedCalls.{Buildable};
ghost use Rattle.laws.specs.JobSheet.JobAnswering.{StringsGood};

// A dictionary, a text, and the strings of the finds: run together, and how many characters each has.
#[derive(Clone, Copy)]
pub(crate) struct Job<'a> {
    pub chars: &'a [u16],
    pub lengths: &'a [u16],
    pub text: &'a [u16],
    pub strings: &'a [u16],
    pub counts: &'a [u16],
    ghost buildable: { Buildable chars.now lengths.now text.now },
    ghost searchable: { StringsGood strings.now counts.now },
}
