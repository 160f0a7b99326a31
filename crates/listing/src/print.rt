// The bytes of a listing, put one behind the other on a page.
ghost use mathlib.Core.List.{[], ◌∷◌, ◌++◌, flatten};
ghost use Rattle.std.specs.Prelude.{◌≡◌};
ghost use Rattle.model.specs.Census.{decimal, spaced, section, letter};
ghost use Rattle.listing.specs.Print.{Puts, refused_rows};

use itoa::Buffer;
use model::{ABANDONED, IN_GC};

// A lent buffer, and the place in it of the next byte. What does not fit is not written, and the place then stops at the end.
// No ghost field says that it stops there: `Puts` speaks of any place, so no contract and no test would be shorter.
#[derive(Drop)]
pub struct Page<'a> {
    pub bytes: &'a mut [u8],
    pub at: usize,
}

// A line of a trace that was refused, and its refusal's number.
#[derive(Clone, Copy, Default, Drop)]
pub struct Refused {
    pub line: usize,
    pub number: usize,
}

impl<'a> Page<'a> {
    fn byte(&mut self, b: u8)
        ensures { Puts self.old self.new (b ∷ []) }
    {
        if self.at < self.bytes.len() {
            self.bytes[self.at] = b;
            self.at += 1;
        }
    }

    fn text(&mut self, s: &[u8])
        ensures { Puts self.old self.new s.now }
    {
        for b in s {
            self.byte(*b);
        }
    }

    // A number, and a space or a newline behind it. No `write!`, which would be no plainer: its contract promises the text where it answers
    // Ok, and that answer would have to be told apart.
    fn number_then(&mut self, n: usize, b: u8)
        ensures { Puts self.old self.new (decimal n ++ (b ∷ [])) }
    {
        self.text(Buffer::new().format(n).as_bytes());
        self.byte(b);
    }

    // A refused line and its refusal; a block and the address of a free cell.
    pub fn pair_row(&mut self, a: usize, b: usize)
        ensures { Puts self.old self.new (spaced (decimal a ∷ decimal b ∷ [])) }
    {
        self.number_then(a, b' ');
        self.number_then(b, b'\n');
    }

    // A list's letter and a holder.
    fn list_and_holder(&mut self, list: u8, holder: usize)
        ensures { Puts self.old self.new (spaced ((list ∷ []) ∷ decimal holder ∷ [])) }
    {
        self.byte(list);
        self.byte(b' ');
        self.number_then(holder, b'\n');
    }

    pub fn block_row(&mut self, block: usize, state: usize, size: usize, list: u8, holder: usize)
        ensures { Puts self.old self.new (spaced (decimal block ∷ decimal state ∷ decimal size ∷ (list ∷ []) ∷ decimal holder ∷ [])) }
    {
        self.number_then(block, b' ');
        self.number_then(state, b' ');
        self.number_then(size, b' ');
        self.list_and_holder(list, holder);
    }

    // A section's name and its count.
    pub fn head(&mut self, name: &[u8], n: usize)
        ensures { Puts self.old self.new (spaced (name.now ∷ decimal n ∷ [])) }
    {
        self.text(name);
        self.byte(b' ');
        self.number_then(n, b'\n');
    }

    fn refused_rows(&mut self, refused: &[Refused])
        ensures { Puts self.old self.new (flatten (refused_rows refused.now)) }
    {
        for line in refused {
            self.pair_row(line.line, line.number);
        }
    }

    // The refused lines: the number of each, and its refusal's.
    pub fn refused_section(&mut self, refused: &[Refused])
        ensures { Puts self.old self.new (section (114 ∷ 101 ∷ 102 ∷ 117 ∷ 115 ∷ 101 ∷ 100 ∷ []) (refused_rows refused.now)) }
    {
        self.head(b"refused", refused.len());
        self.refused_rows(refused);
    }
}

// The letter of a set of lists: A U C local, a u c abandoned, g in-gc.
#[tactic(auto, unfolding(model::specs::Census::letter))]
pub fn list_letter(set: usize) -> u8
    ensures { result ≡ letter set }
{
    if IN_GC <= set {
        return b'g';
    }
    if ABANDONED <= set {
        return b"auc"[set - ABANDONED];
    }
    b"AUC"[set % 3]
}
