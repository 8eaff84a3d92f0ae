// What the operations answer, and why they refuse. The definitions and statements that contracts cite are in specs/.
#![tactic(auto)]

ghost use Rattle.std.specs.Prelude.{◌≡◌};
ghost use Rattle.spec.specs.Refusals.{refusal_number, answer_of, tally_answer_of, first_answer_of};

// Why a call is refused: the lines of the refusal table, of which `refusal_number` gives the numbers.
#[derive(Clone, Copy, Debug, PartialEq, Eq)]
pub enum Refusal {
    DictionaryTooLarge,
    LengthsWrong,
    WordsDisordered,
    TextTooLong,
    Unreadable,
    StringWrong,
    WorkShort,
    OutputShort,
    NoText,
    SheetTooLong,
    SheetWrong,
    FullWidthForm,
}

impl Refusal {
    // The number of the line.
    pub fn number(self) -> u32
        ensures { result ≡ refusal_number self }
    {
        match self {
            Refusal::DictionaryTooLarge => 1,
            Refusal::LengthsWrong => 2,
            Refusal::WordsDisordered => 3,
            Refusal::TextTooLong => 4,
            Refusal::Unreadable => 5,
            Refusal::StringWrong => 6,
            Refusal::WorkShort => 7,
            Refusal::OutputShort => 8,
            Refusal::NoText => 9,
            Refusal::SheetTooLong => 10,
            Refusal::SheetWrong => 11,
            Refusal::FullWidthForm => 12,
        }
    }
}

// refusal is the number of the line of the refusal table that applies, 0 where the call is accepted; count is what an accepted
// call returns, and 0 beside a refusal.
#[repr(C)]
#[derive(Drop)]
pub struct Answer {
    pub refusal: u32,
    pub count: usize,
}

impl From<Result<usize, Refusal>> for Answer {
    ghost from_gives = { λ r a. a ≡ answer_of r };

    fn from(called: Result<usize, Refusal>) -> Answer {
        match called {
            Ok(count) => Answer { refusal: 0, count },
            Err(refusal) => Answer {
                refusal: refusal.number(),
                count: 0,
            },
        }
    }
}

// What a tally counts: how many entries an index has, and under by_length[l - 1] how many of them have length l.
#[derive(Clone, Copy)]
pub struct Tally {
    pub count: usize,
    pub by_length: [u64; 32],
}

// The answer of a tally: beside refusal and count, by_length[l - 1] is the number of entries of length l.
#[repr(C)]
#[derive(Drop)]
pub struct TallyAnswer {
    pub refusal: u32,
    pub count: usize,
    pub by_length: [u64; 32],
}

impl From<Result<Tally, Refusal>> for TallyAnswer {
    ghost from_gives = { λ r a. a ≡ tally_answer_of r };

    fn from(called: Result<Tally, Refusal>) -> TallyAnswer {
        match called {
            Ok(tally) => {
                let by_length = tally.by_length;
                TallyAnswer {
                    refusal: 0,
                    count: tally.count,
                    by_length,
                }
            }
            Err(refusal) => TallyAnswer {
                refusal: refusal.number(),
                count: 0,
                by_length: [0; 32],
            },
        }
    }
}

// The answer of first: position is the first found position of an accepted call, 0 where there is none and beside a refusal.
#[repr(C)]
#[derive(Drop)]
pub struct FirstAnswer {
    pub refusal: u32,
    pub position: u32,
}

impl From<Result<Option<u32>, Refusal>> for FirstAnswer {
    ghost from_gives = { λ r a. a ≡ first_answer_of r };

    fn from(called: Result<Option<u32>, Refusal>) -> FirstAnswer {
        match called {
            Ok(found) => FirstAnswer {
                refusal: 0,
                position: found.unwrap_or(0),
            },
            Err(refusal) => FirstAnswer {
                refusal: refusal.number(),
                position: 0,
            },
        }
    }
}
