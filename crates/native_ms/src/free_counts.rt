// Whether each block's free count is the length of its chain (02, R-7: part of soundness), and the total free cells of a bin. The walk
// along a chain takes as many steps as are counted, which were held to the block's cells before.
ghost use Rattle.std.specs.Prelude.{◌≡◌, ◌<◌, true, ◌||◌, List, ℕ, eqb, get_or};
ghost use Rattle.model.specs.Tables.{view, tables_of};
ghost use Rattle.model.specs.Classes.{classes_fit};
ghost use Rattle.model.specs.Sound.{chain_counts, chain_ok, chained, sound_on};
ghost use Rattle.model.specs.Calls.{free_cells, cells_of, ask};
ghost use Rattle.model.specs.Answers.{count_reply};
ghost use Rattle.model.specs.Promise.{lend};
ghost use Rattle.native_ms.specs.SoundLent.{Lengths};
ghost use Rattle.native_ms.specs.FewCells.{FewCells, cells_in};

use crate::address::Space;
use crate::sound::eager;
use crate::sound::known::{Lent, LentBlock};
use crate::{block, checks, memory, sound};
use model::{Address, BINS, Block, Params, Refusal};

// From the address `head` on, `count` whole cells of b linked one after the other, and then 0.
fn chain_counts(
    space: &Space,
    heap: &[u8],
    b: Block,
    size: usize,
    head: usize,
    count: usize,
) -> bool
    ensures { result ≡ chain_counts count space.now.p heap.now b.0 size head }
{
    let mut at = head;
    for _ in 0..count {
        if !block::is_cell(space, b, size, Address(at)) {
            return false;
        }
        at = memory::load(space.p, heap, Address(at));
    }
    at == 0
}

// The block's count is its chain's length.
#[tactic(auto, unfolding(model::specs::Sound::chain_ok))]
fn chain_ok(b: LentBlock, heap: &[u8]) -> bool
    ensures { result ≡ chain_ok b.entry.lent.now.space.now.p heap.now (view b.entry.lent.now.words.now) b.entry.block.0 }
{
    let space = b.lent.space;
    let count = b.cells();
    let size = b.size();
    count <= block::cell_count(space.p, size)
        && chain_counts(space, heap, b.block, size, b.free().0, count)
}

// An Unallocated block has no chain.
fn block_chained(b: LentBlock, heap: &[u8]) -> bool
    ensures { result ≡ (eqb (get_or b.entry.lent.now.states.now b.entry.block.0 0) 0 || chain_ok b.entry.lent.now.space.now.p heap.now (view b.entry.lent.now.words.now) b.entry.block.0) }
{
    b.state() == block::UNALLOCATED || chain_ok(b, heap)
}

// Each block's chain, from the last block down: one that is broken there is told before the others are walked.
fn chained<'a>(lent: &'a Lent<'a>, heap: &[u8]) -> bool
    ensures { (m : List ℕ) → result ≡ chained lent.now.space.now.p (tables_of (view lent.now.words.now) lent.now.states.now m) heap.now }
{
    for b in (0..lent.space.p.blocks).rev() {
        let block = Block(b);
        if !block_chained(LentBlock { lent, block }, heap) {
            return false;
        }
    }
    true
}

// The block's free cells, if it is of the bin.
#[tactic(auto, unfolding(model::specs::Sound::bin_named))]
fn cells_in(b: LentBlock, bin: usize) -> usize
    ensures { result ≡ cells_in (view b.entry.lent.now.words.now) bin b.entry.block.0 }
{
    if b.list_named() % BINS == bin {
        b.cells()
    } else {
        0
    }
}

// Those of all blocks of the bin. Not `map` and `sum`, tried: open were that the sum fits, and that it is the machine's.
#[tactic(auto, using(laws::proofs::Below::sum_start, laws::proofs::Below::sum_up, crate::proofs::FreeCountLaws::in_few, crate::proofs::Limits::blocks_few), unfolding(model::specs::Calls::cells_of))]
fn cells_of<'a>(lent: &'a Lent<'a>, bin: usize) -> usize
    requires { FewCells (view lent.now.words.now) }
    ensures { result ≡ cells_of lent.now.space.now.p (view lent.now.words.now) bin }
{
    let mut total = 0;
    for b in 0..lent.space.p.blocks {
        let block = Block(b);
        total += cells_in(LentBlock { lent, block }, bin);
    }
    total
}

// Tables that are sound, for the choice of sweeping and their chains too.
pub(crate) fn sound_on(p: Params, words: &[usize], states: &[u8], heap: &[u8]) -> bool
    requires { (Lengths p words.now states.now) × (classes_fit p ≡ true) }
    ensures { (m : List ℕ) → result ≡ sound_on p (tables_of (view words.now) states.now m) heap.now }
{
    let space = Space { p };
    let lent = Lent {
        space: &space,
        words,
        states,
    };
    sound::sound(&lent) && eager::eager_ok(&lent) && chained(&lent, heap)
}

// The total free cells of a bin over all lists, in every phase.
pub fn free_cells(
    p: Params,
    words: &[usize],
    states: &[u8],
    marks: &[u8],
    heap: &[u8],
    bin: usize,
) -> Result<usize, Refusal>
    ensures { count_reply result ≡ ask p (lend words.now states.now marks.now heap.now) (free_cells bin) }
{
    checks::check_lent(p, words, states, marks, heap)?;
    if bin < 1 || BINS <= bin {
        return Err(Refusal::BadRequest);
    }
    let space = Space { p };
    let lent = Lent {
        space: &space,
        words,
        states,
    };
    Ok(cells_of(&lent, bin))
}
