// Flags the directory lines whose keys bear on a string: those that agree with it at some offset.
//
// The lines that agree below 0 are listed by comparing each word with the string. From 0 up binary search over the sorted directory gives
// the lines that agree. The list is lent on for those.
ghost use Rattle.std.specs.Prelude.{◌≡◌, ◌≤◌, length, replicate};
ghost use Rattle.spec.specs.Index.{keys_of};
ghost use Rattle.laws.specs.Search.Sizing.{IsString};
ghost use Rattle.laws.specs.Cut.ExactFlags.{ExactFlags};
ghost use Rattle.dictionary.specs.Words.{lexicon_of};

use crate::flags::flag_list;
use crate::offsets::Bearing;
use agreement::leading::list_leading;
use directory::lines::Directory;

// Sets the flag of each line whose key bears on the string. All flags are 0 on entry.
pub fn flag_bearing(directory: &Directory, string: &[u16], flags: &mut [u8])
    requires is_string { IsString string.now }
    requires room { keys_of directory.now.index.now ≤ length flags.old }
    requires cleared { flags.old ≡ replicate (length flags.old) 0 }
    ensures { ExactFlags (lexicon_of directory.now.words) directory.now.index.now string.now
        (keys_of directory.now.index.now) flags.new }
{
    let mut lines = [0u16; 4096];
    let leading = list_leading(directory, string, 1, &mut lines);
    flag_list(&lines[..leading.count], flags);
    let bearing = Bearing {
        directory: *directory,
        string,
        word_lines: leading.words,
    };
    bearing.flag_offsets(&mut lines, flags);
}
