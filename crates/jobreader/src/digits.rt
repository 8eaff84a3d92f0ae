// Hexadecimal digits, by the ranges they stand in. Upper case only: `a` to `f` are no digits.
ghost use Rattle.std.specs.Prelude.{◌≡◌, ◌<◌, IfSome, unwrap_or};
ghost use Rattle.spec.specs.JobSheet.{digit, no_digit};

// The value of a hexadecimal digit; a byte that is none has no value.
#[tactic(auto, unfolding(spec::specs::JobSheet::digit))]
pub(crate) fn value_of(byte: u8) -> Option<u8>
    ensures value { unwrap_or result no_digit ≡ digit byte }
    ensures small { IfSome result (λ v. v < no_digit) }
{
    match byte {
        b'0'..=b'9' => Some(byte - b'0'),
        b'A'..=b'F' => Some(byte - b'A' + 10),
        _ => None,
    }
}
