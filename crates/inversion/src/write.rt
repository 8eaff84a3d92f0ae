// Writes an index from the posting chains of its keys: header, directory, positions.
//
// Two walks over the codes, in the order of the keys: the first writes a directory line for each chain, the second the positions of each.
// The positions go through the part of the output that begins after the directory.
ghost use Rattle.std.specs.Prelude.{◌≡◌, [], ◌∷◌, ◌+◌, ◌*◌, ◌≤◌, ◌<◌, length};
ghost use Rattle.basics.specs.Chain.{chain, Threaded};
ghost use Rattle.basics.specs.Placed.{placed, Wrote};
ghost use Rattle.basics.specs.Writing.{over};
ghost use Rattle.spec.specs.Index.{header, greatest_number};
ghost use Rattle.spec.specs.Numbers.{directory, all_positions, numbers};
ghost use Rattle.models.specs.Inversion.{code_key};
ghost use Rattle.models.specs.Readability.{most_keys};
ghost use Rattle.laws.specs.Numbers.Header.{SizeOf};
ghost use Rattle.laws.specs.Build.PostingChains.{lines_at};
ghost use Rattle.laws.specs.Build.CodeWalk.{Listable};
ghost use Rattle.layout.specs.Keys.{key_of};

use crate::chains::{Chain, Codes, chain_length};
use layout::fields::line_start;
use layout::keys::Key;
use layout::write::{Size, write_header, write_key};
use width::Number;

// The key of a code: a word by its number, or 4,096 and a lone character.
fn key_of_code(code: usize) -> Key
    requires { code < most_keys }
    ensures { (key_of result ≡ code_key code) × ((key_of result).value ≤ greatest_number) }
{
    if code < 4096 {
        Key::Word(code)
    } else {
        Key::Lone(code - 4096)
    }
}

// Writes the directory, after the header.
fn write_directory(heads: &[Number], pages: &[u8], links: &[Number], output: &mut [Number])
    requires listable { Listable heads.now pages.now links.now }
    requires links_in_bounds { header + length (directory (lines_at heads.now links.now 0)) ≤ length output.old }
    ensures { output.new ≡ placed (directory (lines_at heads.now links.now 0)) header output.old }
{
    let mut line = 0;
    for code in (Codes {
        heads,
        pages,
        from: 0,
    }) {
        let count = chain_length(links, heads[code]);
        write_key(output, line, key_of_code(code), count);
        line += 1;
    }
}

// Writes the positions of a chain, from the index `at` on. Answers where they end.
fn write_chain(links: &[Number], head: Number, part: &mut [Number], at: usize) -> usize
    requires threaded { Threaded links.now head }
    requires head_in_bounds { at + length (chain links.now head) ≤ length part.old }
    ensures { Wrote (chain links.now head) at part.old result part.new }
{
    let mut here = at;
    for position in (Chain { links, at: head }) {
        part[here] = position;
        here += 1;
    }
    here
}

// Writes the positions of every key from the start of `part`, which holds nothing else.
fn write_positions(heads: &[Number], pages: &[u8], links: &[Number], part: &mut [Number])
    requires listable { Listable heads.now pages.now links.now }
    requires links_in_bounds { length (all_positions (lines_at heads.now links.now 0)) ≤ length part.old }
    ensures { part.new ≡ over (all_positions (lines_at heads.now links.now 0)) part.old }
{
    let mut here = 0;
    for code in (Codes {
        heads,
        pages,
        from: 0,
    }) {
        here = write_chain(links, heads[code], part, here);
    }
}

// Writes the numbers of an index. Its text has as many characters as there are links.
pub fn write_index(
    heads: &[Number],
    pages: &[u8],
    links: &[Number],
    size: Size,
    output: &mut [Number],
)
    requires listable { Listable heads.now pages.now links.now }
    requires size_of { SizeOf (lines_at heads.now links.now 0) size.keys size.entries }
    requires links_in_bounds { length (numbers (length links.now) (lines_at heads.now links.now 0)) ≤ length output.old }
    ensures { output.new ≡ over (numbers (length links.now) (lines_at heads.now links.now 0))
        output.old }
{
    let keys = size.keys;
    write_header(output, links.len(), size);
    write_directory(heads, pages, links, output);
    let after = line_start(keys);
    write_positions(heads, pages, links, &mut output[after..]);
}
