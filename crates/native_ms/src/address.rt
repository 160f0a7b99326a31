// Where blocks stand, which block an address lies in, and how lists are numbered.
ghost use Rattle.std.specs.Prelude.{◌≡◌, true, ◌<◌, ◌≤◌};
ghost use Rattle.model.specs.Params.{good_params, start, block_at, in_heap, is_start, bins, sets, lists, holders, parts, list_of, list_word, local_sets, in_gc, available, unswept, consumed};

use model::{Address, BINS, Block, Params};

// Parameters that are known to be good. Handed on by reference: they are too big to copy.
#[derive(Clone, Copy)]
pub(crate) struct Space {
    pub p: Params,
    ghost good: { good_params p ≡ true },
}

impl Space {
    // The address of a block's first byte, and 0 if there is no such block.
    #[tactic(auto, using(crate::proofs::Limits::block_few, crate::proofs::Limits::block_ends), unfolding(model::specs::Params::start))]
    pub(crate) fn start(&self, b: Block) -> Address
        ensures { result.0 ≡ start self.now.p b.0 }
    {
        if b.0 < self.p.blocks {
            Address(self.p.base + b.0 * self.p.bytes)
        } else {
            Address(0)
        }
    }

    // The block that an address lies in; a number past the last block where it lies in none.
    // Not an Option: by 01 a table reads 0 past its end, so that callers go on with no case of their own.
    #[tactic(auto, using(crate::proofs::Limits::bytes_some), unfolding(model::specs::Params::block_at))]
    pub(crate) fn block_at(&self, a: Address) -> Block
        ensures { result.0 ≡ block_at self.now.p a.0 }
    {
        if a.0 < self.p.base {
            Block(self.p.blocks)
        } else {
            Block((a.0 - self.p.base) / self.p.bytes)
        }
    }

    #[tactic(auto, using(crate::proofs::Limits::heap_ends, crate::proofs::Limits::heap_few), unfolding(model::specs::Params::in_heap, model::specs::Params::heap_end, model::specs::Params::heap_bytes))]
    pub(crate) fn in_heap(&self, a: Address) -> bool
        ensures { result ≡ in_heap self.now.p a.0 }
    {
        self.p.base <= a.0 && a.0 < self.p.base + self.p.blocks * self.p.bytes
    }

    // Whether a block starts there.
    #[tactic(auto, using(crate::proofs::Limits::bytes_some, laws::proofs::Params::in_heap_low), unfolding(model::specs::Params::is_start))]
    pub(crate) fn is_start(&self, a: Address) -> bool
        ensures { result ≡ is_start self.now.p a.0 }
    {
        self.in_heap(a) && (a.0 - self.p.base) % self.p.bytes == 0
    }
}

// Where a block stands, by the address that the tables hold. They hold 0 where there is none, so it is not 0.
#[derive(Clone, Copy)]
pub(crate) struct BlockStart {
    pub at: Address,
    ghost some: { 0 < at.0 },
}

// A bin, by its number.
#[derive(Clone, Copy)]
pub(crate) struct Bin {
    pub number: usize,
    ghost low: { number < bins },
}

// A list, by its number.
#[derive(Clone, Copy)]
pub(crate) struct ListNumber {
    pub at: usize,
    ghost low: { at < lists },
}

impl ListNumber {
    // The word that a block holds for the list.
    #[tactic(auto, unfolding(model::specs::Params::list_word))]
    pub(crate) fn word(self) -> usize
        ensures { result ≡ list_word self.at }
    {
        1 + self.at
    }
}

// The list of a set and a bin.
#[tactic(auto, unfolding(model::specs::Params::list_of))]
fn list_of(set: usize, bin: Bin) -> ListNumber
    requires { set < sets }
    ensures { result.at ≡ list_of set bin.number }
{
    ListNumber {
        at: BINS * set + bin.number,
    }
}

// The three lists of one owner and bin.
#[derive(Clone, Copy)]
pub(crate) struct Lists {
    pub available: ListNumber,
    pub unswept: ListNumber,
    pub consumed: ListNumber,
}

// Who has lists: a holder, abandoned or in-gc, by the first of its three sets.
#[derive(Clone, Copy)]
pub(crate) struct Owner {
    pub set: usize,
    ghost low: { set ≤ in_gc },
}

impl Owner {
    // Its lists of blocks that may have free cells, that wait for a sweep, and that have no free cell.
    #[tactic(auto, unfolding(model::specs::Params::available, model::specs::Params::unswept, model::specs::Params::consumed))]
    pub(crate) fn lists(self, bin: Bin) -> Lists
        ensures available { result.available.at ≡ available self.set bin.number }
        ensures unswept { result.unswept.at ≡ unswept self.set bin.number }
        ensures consumed { result.consumed.at ≡ consumed self.set bin.number }
    {
        Lists {
            available: list_of(self.set, bin),
            unswept: list_of(self.set + 1, bin),
            consumed: list_of(self.set + 2, bin),
        }
    }
}

// A part of a release, by its number: a holder, or the shared part at 0.
#[derive(Clone, Copy)]
pub(crate) struct Part {
    pub number: usize,
    ghost low: { number < parts },
}

// A holder, by its number.
#[derive(Clone, Copy)]
pub(crate) struct Holder {
    pub number: usize,
    ghost from: { 1 ≤ number },
    ghost to: { number ≤ holders },
}

impl Holder {
    // The owner of its lists.
    #[tactic(auto, unfolding(model::specs::Params::local_sets))]
    pub(crate) fn owner(self) -> Owner
        ensures { result.set ≡ local_sets self.number }
    {
        Owner {
            set: 3 * (self.number - 1),
        }
    }

    pub(crate) fn part(self) -> Part
        ensures { result.number ≡ self.number }
    {
        Part {
            number: self.number,
        }
    }
}
