// The sentinel of a string: the least number that is none of its characters.
//
// The numbers from 0 on are tried, each against the whole string. A string of n characters leaves one of the first n + 1 free, so the cost
// is at most quadratic in the string, which has at most 256 characters.
ghost use Rattle.std.specs.Prelude.{◌≤◌, length};
ghost use Rattle.basics.specs.Absent.{LeastAbsent};

// The least number that is no character of the string.
pub fn sentinel_of(string: &[u16]) -> usize
    requires { length string.now ≤ 256 }
    ensures { LeastAbsent string.now result × (result ≤ 256) }
{
    for sentinel in 0..256 {
        if !string.contains(&sentinel) {
            return usize::from(sentinel);
        }
    }
    256
}
