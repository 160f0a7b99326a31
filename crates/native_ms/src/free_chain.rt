// The free chain of a block, walked a cell at a time, and the chain that a sweep would build, asked cell by cell: what a listing
// prints of it. Any parameters, words, marks and heap will do; on parameters that are off a walk stands at no cell.
ghost use Rattle.std.specs.Prelude.{◌≡◌, true, false, MatchOption, ◌&&◌, ◌+◌, ◌-◌, ◌*◌, ltb};
ghost use Rattle.model.specs.Params.{good_params, start};
ghost use Rattle.model.specs.Tables.{view};
ghost use Rattle.model.specs.Block.{first_cell, more_cells, next_cell, cell_count, cell_at, frees_cell};

use crate::address::Space;
use crate::block::Cell;
use crate::{block, memory, params};
use model::{Address, Block, ChainWalk, Params};
use words::tables;

// Steps and no Iterator, for hosts: the walk is a public record of `model` that definitions compute with, by rule of the project, and holds no
// reference, so that the heap is lent to each turn. listing makes an Iterator of them.
// The walk at the block's free head.
#[tactic(auto, unfolding(model::specs::Block::first_cell))]
pub fn first(p: Params, words: &[usize], b: Block) -> ChainWalk
    ensures { result ≡ first_cell p (view words.now) b }
{
    let at = Address(tables::free(words, b.0));
    let size = tables::size(words, b.0);
    let left = block::cell_count(p, size);
    ChainWalk {
        block: b,
        at,
        size,
        left,
    }
}

// Whether the walk stands at a cell: it ends at a bad link, or after as many cells as a block has.
#[tactic(auto, unfolding(model::specs::Block::more_cells))]
pub fn more(p: Params, walk: ChainWalk) -> bool
    ensures { result ≡ more_cells p walk }
{
    params::good_params(p)
        && 0 < walk.left
        && block::is_cell(&Space { p }, walk.block, walk.size, walk.at)
}

// The walk from the cell's link on.
#[tactic(auto, unfolding(model::specs::Block::next_cell))]
pub fn next(p: Params, heap: &[u8], walk: ChainWalk) -> ChainWalk
    ensures { result ≡ next_cell p heap.now walk }
{
    let link = memory::load(p, heap, walk.at);
    ChainWalk {
        at: Address(link),
        left: walk.left.saturating_sub(1),
        ..walk
    }
}

// Where the i-th whole cell of a block with cells of `size` bytes stands, from 0, if it has one.
#[tactic(auto, using(crate::proofs::Chains::cell_far))]
fn cell(p: Params, b: Block, size: usize, i: usize) -> Option<Address>
    ensures { MatchOption result ((good_params p && ltb i (cell_count p size)) ≡ false) (λ at. ((good_params p && ltb i (cell_count p size)) ≡ true) × (at.0 ≡ start p b.0 + i * size)) }
{
    if params::good_params(p) && i < block::cell_count(p, size) {
        Some(Address(Space { p }.start(b).0 + i * size))
    } else {
        None
    }
}

// The same, and 0 if there is none: by a rule of the project it equals its definition, which has no Option.
#[tactic(auto, unfolding(model::specs::Block::cell_at))]
pub fn cell_at(p: Params, b: Block, size: usize, i: usize) -> Address
    ensures { result.0 ≡ cell_at p b.0 size i }
{
    cell(p, b, size, i).unwrap_or(Address(0))
}

// Whether a sweep by these marks frees it.
#[tactic(auto, using(crate::proofs::Chains::frees_kept, crate::proofs::Chains::cell_fits, laws::proofs::Below::and_left), unfolding(model::specs::Block::frees_cell))]
pub fn frees_cell(p: Params, marks: &[u8], b: Block, size: usize, i: usize) -> bool
    ensures { result ≡ frees_cell p marks.now b.0 size i }
{
    let Some(at) = cell(p, b, size, i) else {
        return false;
    };
    !block::cell_is_marked(&Space { p }, marks, Cell { at, size })
}
