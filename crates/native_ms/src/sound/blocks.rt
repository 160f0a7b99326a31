// Each block by itself, and how many are Unallocated.
ghost use Rattle.std.specs.Prelude.{◌≡◌, ◌<◌};
ghost use Rattle.model.specs.Tables.{view};
ghost use Rattle.model.specs.Sound.{block_clear, list_named, size_ok, tls_ok};
ghost use Rattle.native_ms.specs.SoundWalk.{in_use, names_list, block_fits, unused_if_fit};
ghost use Rattle.native_ms.specs.Borders.{Sizes};

use crate::sound::known::{Lent, LentBlock};
use crate::{block, global};
use model::{ABANDONED, BINS, Block, LISTS};

fn in_use(state: u8) -> bool
    ensures { result ≡ in_use state }
{
    state == block::UNMARKED || state == block::MARKED
}

impl<'a> LentBlock<'a> {
    // The list that it names. Not an Option, which would be no plainer: by 01 a block that names none has 0, and callers go on with it.
    #[tactic(auto, unfolding(model::specs::Sound::list_named))]
    pub(crate) fn list_named(self) -> usize
        ensures { result ≡ list_named (view self.entry.lent.now.words.now) self.entry.block.0 }
    {
        self.list().saturating_sub(1)
    }

    #[tactic(auto, using(crate::proofs::SoundLent::clear_words))]
    fn is_clear(self) -> bool
        ensures { result ≡ block_clear (view self.entry.lent.now.words.now) self.entry.block.0 }
    {
        let next = self.next();
        let prev = self.prev();
        let free = self.free();
        let size = self.size();
        let list = self.list();
        let tls = self.tls();
        let cells = self.cells();
        next.0 | prev.0 | free.0 | size | list | tls | cells == 0
    }

    fn names_list(self) -> bool
        ensures { result ≡ names_list (view self.entry.lent.now.words.now) self.entry.block.0 }
    {
        let word = self.list();
        1 <= word && word <= LISTS
    }

    #[tactic(auto, unfolding(model::specs::Sound::tls_ok, model::specs::Sound::set_named))]
    fn tls_ok(self) -> bool
        ensures { result ≡ tls_ok (view self.entry.lent.now.words.now) self.entry.block.0 }
    {
        let holder = self.tls();
        let set = self.list_named() / BINS;
        global::is_holder(holder) && (ABANDONED <= set || holder == set / 3 + 1)
    }
}

// What the tests of blocks read beside the block: the parameters, and the class sizes. These are lent too, since a constant array is built anew
// where it is read (speed).
#[derive(Clone, Copy)]
pub(crate) struct Blocks<'a> {
    pub lent: &'a Lent<'a>,
    pub classes: &'a [usize; BINS],
    ghost sizes: { Sizes lent.now.space.now.p classes.now },
}

impl<'a> Blocks<'a> {
    #[tactic(auto, unfolding(model::specs::Sound::size_ok, model::specs::Sound::bin_named))]
    fn size_ok(&self, b: LentBlock) -> bool
        ensures { result ≡ size_ok self.now.lent.now.space.now.p (view b.entry.lent.now.words.now) b.entry.block.0 }
    {
        let bin = b.list_named() % BINS;
        let size = b.size();
        1 <= bin && size != 0 && size == self.classes[bin] * 8
    }

    // The block by itself.
    #[tactic(auto, unfolding(crate::specs::SoundWalk::block_fits, model::specs::Sound::link_ok))]
    fn block_fits(&self, b: LentBlock) -> bool
        ensures { result ≡ block_fits self.now.lent.now.space.now.p (view b.entry.lent.now.words.now) b.entry.lent.now.states.now b.entry.block.0 }
    {
        let state = b.state();
        if state == block::UNALLOCATED {
            return b.is_clear();
        }
        in_use(state)
            && b.names_list()
            && self.size_ok(b)
            && block::link_ok(self.lent.space, b.block, b.size(), b.free())
            && b.tls_ok()
    }

    // How many blocks are Unallocated, if each fits; from the last one down, as all walks over the blocks of a call's first tests.
    pub(crate) fn unused(&self) -> Option<usize>
        ensures { result ≡ unused_if_fit self.now.lent.now.space.now.p (view self.now.lent.now.words.now) self.now.lent.now.states.now }
    {
        let lent = self.lent;
        let mut unused: usize = 0;
        for b in (0..lent.space.p.blocks).rev() {
            let block = Block(b);
            let here = LentBlock { lent, block };
            if !self.block_fits(here) {
                return None;
            }
            unused += usize::from(here.state() == block::UNALLOCATED);
        }
        Some(unused)
    }
}
