// The refusal of a string that can't be searched for: search, the first position and the cut-down index test it after the index.
ghost use Rattle.std.specs.Prelude.{◌≡◌, cond};
ghost use Rattle.spec.specs.Calls.{string_wrong};
ghost use Rattle.spec.specs.Refusals.{number_of};

use spec::Refusal;

// Tests a search string: 6 if it is empty or longer than 256 characters.
pub fn check_string(string: &[u16]) -> Result<(), Refusal>
    ensures { number_of result ≡ cond (string_wrong string.now) 6 0 }
{
    if string.is_empty() || 256 < string.len() {
        return Err(Refusal::StringWrong);
    }
    Ok(())
}
