// Each list walked once. The walks share the count of blocks, so that all of them together take as many steps as there are
// lists and blocks.
ghost use Rattle.std.specs.Prelude.{◌≡◌, true, false, MatchOption, option_and_then, ◌+◌, ◌^◌, ◌<◌, ◌≤◌, get_or};
ghost use Rattle.model.specs.Params.{is_start, block_at, in_gc, lists, bins};
ghost use Rattle.model.specs.Tables.{view};
ghost use Rattle.model.specs.Sound.{owner_empty};
ghost use Rattle.native_ms.specs.SoundWalk.{stands_on, pass_from, passes};
ghost use Rattle.native_ms.specs.SoundLent.{Firsts};

use crate::address::{ListNumber, Space};
use crate::block;
use crate::sound::known;
use crate::sound::known::{Lent, LentBlock};
use model::{Address, BINS, Block, LISTS, SETS};

// The block size is a power of two: which.
pub(crate) fn log_of(space: &Space) -> usize
    ensures { (space.now.p.bytes ≡ 2 ^ result) × (result ≤ 16) }
{
    usize::trailing_zeros(space.p.bytes) as usize
}

// What the walks read: what is lent, the block size as a power of two, and of each set the union of its lists' firsts.
#[derive(Clone, Copy)]
pub(crate) struct Lists<'a> {
    pub lent: &'a Lent<'a>,
    log: usize,
    firsts: [usize; SETS],
    ghost power: { lent.now.space.now.p.bytes ≡ 2 ^ log },
    ghost low: { log ≤ 16 },
    ghost sets: { Firsts lent.now.words.now firsts },
}

impl<'a> Lists<'a> {
    pub(crate) fn new(lent: &'a Lent<'a>) -> Self
        ensures { result.lent.now ≡ lent.now }
    {
        let log = log_of(lent.space);
        let firsts = lent.firsts();
        Lists { lent, log, firsts }
    }

    // The three sets of an owner are empty.
    #[tactic(auto, using(crate::proofs::SoundLent::owner_words))]
    pub(crate) fn owner_empty(&self, owner: usize) -> bool
        requires { owner ≤ in_gc }
        ensures { result ≡ owner_empty (view self.now.lent.now.words.now) owner }
    {
        self.firsts[owner] | self.firsts[owner + 1] | self.firsts[owner + 2] == 0
    }

    // The block that starts at an address, if one does. A shift, and a product in place of a remainder.
    fn block_from(&self, a: Address) -> Option<Block>
        ensures { MatchOption result (is_start self.now.lent.now.space.now.p a.0 ≡ false) (λ b. (b.0 < self.now.lent.now.space.now.p.blocks) × (is_start self.now.lent.now.space.now.p a.0 ≡ true) × (b.0 ≡ block_at self.now.lent.now.space.now.p a.0)) }
    {
        let space = self.lent.space;
        let number = a.0.checked_sub(space.p.base)? >> self.log;
        if number < space.p.blocks && space.p.base + number * space.p.bytes == a.0 {
            Some(Block(number))
        } else {
            None
        }
    }

    // The block b, which starts at a, stands on the list behind the block at `before`.
    #[tactic(auto, unfolding(crate::specs::SoundWalk::stands_on, model::specs::Params::list_word))]
    fn stands_on(&self, list: ListNumber, before: Address, a: Address, b: LentBlock) -> bool
        requires { (is_start self.now.lent.now.space.now.p a.0 ≡ true) × (b.block.0 ≡ block_at self.now.lent.now.space.now.p a.0) }
        ensures { result ≡ stands_on self.now.lent.now.space.now.p (view b.entry.lent.now.words.now) b.entry.lent.now.states.now list.at before.0 a.0 }
    {
        b.state() != block::UNALLOCATED && b.list() == 1 + list.at && b.prev() == before
    }

    // Walks a list, of at most `most` blocks: how many of these it does not meet. A `while`, which ends with the list: what is counted down is
    // the answer, no place.
    fn pass(&self, list: ListNumber, most: usize) -> Option<usize>
        ensures { result ≡ pass_from most self.now.lent.now.space.now.p (view self.now.lent.now.words.now) self.now.lent.now.states.now list.at 0 (get_or (view self.now.lent.now.words.now).first list.at 0) }
    {
        let lent = self.lent;
        let mut left = most;
        let mut before = Address(0);
        let mut a = lent.first(list);
        while a.0 != 0 {
            if left == 0 {
                return None;
            }
            let block = self.block_from(a)?;
            let b = LentBlock { lent, block };
            if !self.stands_on(list, before, a, b) {
                return None;
            }
            before = a;
            a = b.next();
            left -= 1;
        }
        if lent.last(list).0 == before.0 {
            Some(left)
        } else {
            None
        }
    }

    // Walks the lists of a set, from its first one on: those that have a first or a last. By number, which a walk takes: firsts and
    // lasts zipped would be no plainer, since they would have to be counted and turned round beside it.
    fn pass_set(&self, from: usize, most: usize) -> Option<usize>
        requires { from + bins ≤ lists }
        ensures { option_and_then (passes from self.now.lent.now.space.now.p (view self.now.lent.now.words.now) self.now.lent.now.states.now) result ≡ passes (from + bins) self.now.lent.now.space.now.p (view self.now.lent.now.words.now) self.now.lent.now.states.now most }
    {
        let mut left = most;
        for list in (from..from + BINS).rev() {
            let here = ListNumber { at: list };
            let first = self.lent.first(here);
            let last = self.lent.last(here);
            if first.0 | last.0 != 0 {
                left = self.pass(here, left)?;
            }
        }
        Some(left)
    }

    // Walks every list: how many blocks none of them meets. Only a set that has a first or a last is looked at.
    pub(crate) fn passes(&self) -> Option<usize>
        ensures { result ≡ passes lists self.now.lent.now.space.now.p (view self.now.lent.now.words.now) self.now.lent.now.states.now self.now.lent.now.space.now.p.blocks }
    {
        let mut left = self.lent.space.p.blocks;
        // Not `firsts.iter().enumerate().rev()`, tried: open were that the invariant goes on and that all sets are passed.
        for set in (0..SETS).rev() {
            let from = BINS * set;
            let first = self.firsts[set];
            let last = known::union_of(self.lent.words, LISTS + from, BINS);
            if first | last != 0 {
                left = self.pass_set(from, left)?;
            }
        }
        Some(left)
    }
}
