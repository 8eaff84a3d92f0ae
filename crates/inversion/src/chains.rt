// Inversion: the posting list of each key, the positions of a text at which it is registered, as a chain of links.
//
// A key is one number, its code: the word number, or 4,096 + the character, so that codes in order are keys in order. There are 69,632. A
// pass from the last position to the first puts each position that has a token at the head of its code's chain. The link overwrites the
// token, so the chains take no room of their own, and they run through ascending positions. A flag for each page of 64 codes lets walks
// over all codes skip the pages that no key of this text falls into. Keys and entries are counted before anything is written. The codes in
// use and the positions of a chain are iterators over these tables.
ghost use Rattle.std.specs.Prelude.{◌≡◌, ℕ, suc, ◌+◌, ◌-◌, ◌*◌, ◌/◌, ◌≤◌, ◌<◌, length, get_or, MatchOption};
ghost use Rattle.std.specs.Iterator.{YieldsFirst, at_most, item_count};
ghost use Rattle.basics.specs.Chain.{chain, Chained, Threaded};
ghost use Rattle.basics.specs.Member.{In};
ghost use Rattle.inversion.specs.ChainProp.{Chained-prop};
ghost use Rattle.spec.specs.Replaced.{replaced_char, replaced};
ghost use Rattle.models.specs.Inversion.{coded};
ghost use Rattle.models.specs.Readability.{most_keys};
ghost use Rattle.laws.specs.Build.Pages.{Paged};
ghost use Rattle.laws.specs.Build.PostingChains.{Linkable, Fresh, Links};
ghost use Rattle.laws.specs.Build.CodeWalk.{Next};

use folding::forms::replace;
use layout::write::Size;
use width::{Number, number_at};

// The code of a token, where `character` is the text's as lent. Both codes are computed, so that no branch has to be predicted.
fn code_of(token: usize, character: u16) -> usize
    requires { (1 ≤ token) × (token ≤ 4097) }
    ensures is { coded token (replaced_char character) ≡ suc result }
    ensures small { result < most_keys }
{
    let lone = 4096 + replace(character) as usize;
    if token == 4097 { lone } else { token - 1 }
}

// Turns the tokens of the replaced text into links, fills the heads, which are clear on entry, and the pages, and counts keys and entries.
pub fn chain_positions(
    text: &[u16],
    tokens: &mut [Number],
    heads: &mut [Number],
    pages: &mut [u8],
) -> Size
    requires linkable { Linkable (replaced text.now) tokens.old }
    requires fresh { Fresh heads.old pages.old }
    ensures { Links (replaced text.now) tokens.old tokens.new
        heads.new pages.new result.keys result.entries 0 }
{
    let mut keys = 0;
    let mut entries = 0;
    for p in (0..tokens.len()).rev() {
        let token = number_at(tokens, p);
        if token != 0 {
            let code = code_of(token, text[p]);
            let head = heads[code];
            tokens[p] = head;
            heads[code] = (p + 1) as Number;
            pages[code / 64] = 1;
            entries += 1;
            if head == 0 {
                keys += 1;
            }
        }
    }
    Size { keys, entries }
}

// The first code from `from` on that has a chain, if any.
fn next_code(heads: &[Number], pages: &[u8], from: usize) -> Option<usize>
    requires paged { Paged heads.now pages.now }
    requires from_in_bounds { from ≤ length heads.now }
    ensures { MatchOption result (Next heads.now from (length heads.now)) (λ code. Next heads.now from code × (code < length heads.now)) }
{
    let mut code = from;
    // A `while`: the code jumps over a page that has none in use.
    while code < heads.len() {
        if code % 64 == 0 && pages[code / 64] == 0 {
            code += 64;
        } else if heads[code] == 0 {
            code += 1;
        } else {
            return Some(code);
        }
    }
    None
}

// The codes from `from` on that have a chain, in order.
#[derive(Drop)]
pub(crate) struct Codes<'a> {
    pub(crate) heads: &'a [Number],
    pub(crate) pages: &'a [u8],
    pub(crate) from: usize,
    ghost whole: { length heads.now ≡ 64 * length pages.now },
    ghost unused: { (k : ℕ) → k < length heads.now → get_or pages.now (k / 64) 0 ≡ 0 → get_or heads.now k 0 ≡ 0 },
    ghost within: { from ≤ length heads.now },
}

impl<'a> Iterator for Codes<'a> {
    type Item = usize;

    ghost next_gives = { λ s r t. MatchOption r (Next s.heads.now s.from (length s.heads.now))
        (λ code. Next s.heads.now s.from code × (code < length s.heads.now) × (t.heads.now ≡ s.heads.now) × (t.from ≡ code + 1)) };

    ghost remaining = { λ s. at_most (length s.heads.now - s.from) };

    fn next(&mut self) -> Option<usize> {
        let code = next_code(self.heads, self.pages, self.from)?;
        self.from = code + 1;
        Some(code)
    }
}

// The positions of a chain that are left, each linked to the next one; the last is linked to 0. Links lie in the work slice, two bytes
// each, so none is an `Option`.
#[derive(Drop)]
pub(crate) struct Chain<'a> {
    pub(crate) links: &'a [Number],
    pub(crate) at: Number,
    ghost chained: { Chained links.now at (chain links.now at) } by { Chained-prop links.now at (chain links.now at) },
    ghost within: { (p : ℕ) → In p (chain links.now at) → p ≤ length links.now },
}

impl<'a> Iterator for Chain<'a> {
    type Item = Number;

    ghost next_gives = { YieldsFirst (λ s. chain s.links.now s.at) };

    ghost remaining = { item_count (λ s. chain s.links.now s.at) };

    fn next(&mut self) -> Option<Number> {
        if self.at == 0 {
            return None;
        }
        let position = self.at;
        self.at = self.links[position as usize - 1];
        Some(position)
    }
}

// How many positions a chain has.
pub(crate) fn chain_length(links: &[Number], head: Number) -> usize
    requires { Threaded links.now head }
    ensures { result ≡ length (chain links.now head) }
{
    Chain { links, at: head }.count()
}
