// Writes the cut-down index for one string: the same n, and the keys that bear on the string with all their positions.
//
// The lines whose keys bear are flagged already. One walk over the flags sizes the result, so that 8 is tested before anything is written.
// Two more walks write the flagged directory lines and their positions, the positions through the part of the output that begins after the
// directory. The cost is linear in the directory and in the positions written.
ghost use Rattle.std.specs.Prelude.{◌≡◌, ◌+◌, ◌≤◌, length};
ghost use Rattle.basics.specs.Placed.{placed};
ghost use Rattle.basics.specs.Writing.{over};
ghost use Rattle.spec.specs.Numbers.{directory, all_positions};
ghost use Rattle.spec.specs.Index.{header, keys_of, lines_in};
ghost use Rattle.spec.specs.Cut.{bearing, cut_down};
ghost use Rattle.spec.specs.Calls.{in_front};
ghost use Rattle.laws.specs.Cut.ExactFlags.{ExactFlags, IsSize};
ghost use Rattle.dictionary.specs.Words.{lexicon_of};

use copying::slices::write_list;
use directory::lines::Directory;
use layout::fields::{key_count, line_start, text_len};
use layout::lines::{Line, Lines, next_line};
use layout::write::{Size, write_header, write_line};
use width::Number;

// A directory with a flag for each of its lines: 1 where the line's key bears on the string, else 0.
#[derive(Clone, Copy)]
pub(crate) struct Flagged<'a> {
    pub directory: Directory<'a>,
    pub string: &'a [u16],
    pub flags: &'a [u8],
    ghost exact: { ExactFlags (lexicon_of directory.words) directory.index.now string.now (keys_of directory.index.now) flags.now },
}

impl<'a> Flagged<'a> {
    // How many lines are flagged, and how many positions they have.
    pub(crate) fn size(&self) -> Size
        ensures { IsSize (lexicon_of self.now.directory.words) self.now.directory.index.now self.now.string.now result.keys
            result.entries }
    {
        let index = self.directory.index;
        let mut keys = 0;
        let mut entries = 0;
        // No `Lines`, which read each line: of lines that bear on nothing only the flag is read.
        for line in 0..key_count(index) {
            if self.flags[line] != 0 {
                keys += 1;
                entries = next_line(index, line, entries).to;
            }
        }
        Size { keys, entries }
    }

    // Writes the flagged directory lines after the header.
    fn write_directory(&self, output: &mut [Number])
        requires { header + length (directory (bearing (lexicon_of self.now.directory.words) self.now.string.now
            (lines_in self.now.directory.index.now))) ≤ length output.old }
        ensures { output.new ≡ placed (directory (bearing (lexicon_of self.now.directory.words) self.now.string.now
            (lines_in self.now.directory.index.now))) header output.old }
    {
        let index = self.directory.index;
        let mut keys = 0;
        for line in 0..key_count(index) {
            if self.flags[line] != 0 {
                // Counted from 0, its positions go to its count.
                let Line {
                    kind,
                    value,
                    to,
                    ..
                } = next_line(index, line, 0);
                write_line(output, keys, kind, value, to);
                keys += 1;
            }
        }
    }

    // Writes the positions of the flagged lines from the start of `part`, which holds nothing else.
    fn write_positions(&self, part: &mut [Number])
        requires { length (all_positions (bearing (lexicon_of self.now.directory.words) self.now.string.now
            (lines_in self.now.directory.index.now))) ≤ length part.old }
        ensures { part.new ≡ over (all_positions (bearing (lexicon_of self.now.directory.words) self.now.string.now
            (lines_in self.now.directory.index.now))) part.old }
    {
        let mut at = 0;
        for line in Lines::new(self.directory.index) {
            if self.flags[line.number] != 0 {
                write_list(line.positions, at, part);
                at += line.positions.len();
            }
        }
    }

    // Writes the cut-down index, whose size is known, to the start of the output.
    pub(crate) fn write(&self, size: Size, output: &mut [Number])
        requires size { IsSize (lexicon_of self.now.directory.words) self.now.directory.index.now self.now.string.now size.keys
            size.entries }
        requires room { length (cut_down (lexicon_of self.now.directory.words) self.now.directory.index.now self.now.string.now)
            ≤ length output.old }
        ensures { output.new ≡ in_front (cut_down (lexicon_of self.now.directory.words) self.now.directory.index.now
            self.now.string.now) output.old }
    {
        let after = line_start(size.keys);
        write_header(output, text_len(self.directory.index), size);
        self.write_directory(output);
        self.write_positions(&mut output[after..]);
    }
}
