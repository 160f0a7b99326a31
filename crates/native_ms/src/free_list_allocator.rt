// The search for a block with a free cell, and the public call alloc. Named after the Rust's free_list_allocator.rs; its
// `init_block` and `block_alloc` stand in block.rt. The searches are right on any words; that tables are sound is nothing they
// need.
ghost use Rattle.std.specs.Prelude.{◌≡◌, false, List, [], ℕ, ◌<◌, ◌≤◌, length, IfSome, Some};
ghost use Rattle.model.specs.Params.{word_count, block_at};
ghost use Rattle.model.specs.declared.Block.{Block as TheBlock};
ghost use Rattle.model.specs.Tables.{view, tables_of};
ghost use Rattle.model.specs.BlockList.{popped};
ghost use Rattle.model.specs.FreeListAllocator.{find_free_block_with, recycle_local_blocks, acquire_abandoned, find_block};
ghost use Rattle.model.specs.Calls.{alloc, take_cell};
ghost use Rattle.model.specs.Answers.{alloc_reply};
ghost use Rattle.native_ms.specs.Closing.{Filed, skimmed, reached, closed, Searched};
ghost use Rattle.model.specs.Promise.{lend, Promised};
ghost use Rattle.native_ms.specs.Links.{word_of, end_word, end_fresh};
ghost use Rattle.native_ms.specs.Abandoned.{next_seen, pop_abandoned, TakenOver};
ghost use Rattle.native_ms.specs.Ending.{ended, closed_search, acquire_global, Freshened, stepped, shown, ServedBy, Ready, Shiftable, Does};
ghost use Rattle.native_ms.specs.Checked.{lent_tests};
ghost use Rattle.native_ms.specs.Places.{Known, Standing, Offered, HasFree, Takeable};

use crate::address::{Bin, BlockStart, Holder, ListNumber, Lists, Owner, Space};
use crate::sound::{known, lists};
use crate::{allocator, block, block_list, checks, size_class};
use model::{ABANDONED, Address, Block, Params, Request, Served, Unserved};
use words::{states, tables};

// What a search gives: a block with a free cell, if there is one, and how many blocks were swept.
#[derive(Clone, Copy)]
pub(crate) struct Found {
    pub at: Option<BlockStart>,
    pub swept: usize,
}

// Where the whole search ends: a block with a free cell, and whether it is the offered one, which is part of an alloc's answer.
#[derive(Clone, Copy)]
pub(crate) struct End {
    pub start: BlockStart,
    pub fresh: bool,
}

// What the whole search gives: its end, if it found a block, and how many blocks were swept.
#[derive(Clone, Copy)]
pub(crate) struct Search {
    pub end: Option<End>,
    pub swept: usize,
}

impl Search {
    // It ends at a block that stood on a list.
    fn listed(start: BlockStart, swept: usize) -> Self
        ensures end { result.end ≡ Some (record { start = start; fresh = false }) }
        ensures swept { result.swept ≡ swept }
    {
        let end = End {
            start,
            fresh: false,
        };
        Search {
            end: Some(end),
            swept,
        }
    }
}

// What an alloc that passed its tests looks for.
// The lent slices stay apart: where a struct of `&mut` was made for a call, the proof did not learn what it left behind them.
#[derive(Clone, Copy)]
pub(crate) struct Wanted<'a> {
    pub space: &'a Space,
    pub holder: Holder,
    pub bin: Bin,
    pub request: Request,
    ghost offered: { Offered space.now.p bin.number request.offer },
    ghost shift: { Shiftable request.align request.offset },
}

// The next abandoned block of a bin, and whether it waits for a sweep. The flag goes with every block, so an enum would be no plainer.
#[derive(Clone, Copy)]
pub(crate) struct Abandoned {
    pub at: BlockStart,
    pub unswept: bool,
}

// The first available block with a free cell. Those before it become consumed.
pub(crate) fn find_free_block_with(
    space: &Space,
    words: &mut [usize],
    own: Lists,
) -> Option<BlockStart>
    ensures { popped (word_of result) (view words.new) ≡ skimmed (find_free_block_with space.now.p.blocks space.now.p own.available.at own.consumed.at (view words.old)) }
{
    for _ in 0..space.p.blocks {
        let first = tables::first(words, own.available.at);
        if first == 0 {
            return None;
        }
        let at = Address(first);
        let b = space.block_at(at);
        let cell = tables::free(words, b.0);
        if cell != 0 {
            return Some(BlockStart { at });
        }
        block_list::pop(space, words, own.available);
        block_list::push(space, words, own.consumed, b);
    }
    None
}

// Makes a block available if it has a free cell, else consumed. The answer: whether it has one.
fn file_block(space: &Space, words: &mut [usize], own: Lists, b: Block) -> bool
    ensures { Filed space.now.p own.available.at own.consumed.at b.0 (view words.old) result (view words.new) }
{
    let cell = tables::free(words, b.0);
    if cell == 0 {
        block_list::push(space, words, own.consumed, b);
        return false;
    }
    block_list::push(space, words, own.available, b);
    true
}

// Sweeps the owner's unswept blocks until one has a free cell.
pub(crate) fn recycle_local_blocks(
    space: &Space,
    words: &mut [usize],
    marks: &[u8],
    heap: &mut [u8],
    owner: Owner,
    bin: Bin,
) -> Found
    requires { Known space.now.p (length words.old) (length marks.now) (length heap.old) }
    ensures { Searched space.now.p.blocks (reached (word_of result.at) result.swept (view words.new) heap.new) (closed space.now.p 0 heap.old (recycle_local_blocks space.now.p.blocks space.now.p marks.now owner.set bin.number (view words.old))) }
{
    let own = owner.lists(bin);
    let mut swept: usize = 0;
    for _ in 0..space.p.blocks {
        let Some(start) = block_list::pop(space, words, own.unswept) else {
            return Found { at: None, swept };
        };
        let b = space.block_at(start.at);
        block::sweep(space, words, marks, heap, b);
        swept += 1;
        let free = file_block(space, words, own, b);
        if free {
            return Found {
                at: Some(start),
                swept,
            };
        }
    }
    Found { at: None, swept }
}

// Takes an abandoned block of the bin off its list: an available one, or else an unswept one. Abandoned consumed blocks are
// not tried.
fn pop_abandoned(space: &Space, words: &mut [usize], bin: Bin) -> Option<Abandoned>
    ensures { next_seen result (view words.new) ≡ pop_abandoned space.now.p bin.number (view words.old) }
{
    let shared = Owner { set: ABANDONED }.lists(bin);
    if let Some(at) = block_list::pop(space, words, shared.available) {
        return Some(Abandoned { at, unswept: false });
    }
    let at = block_list::pop(space, words, shared.unswept)?;
    Some(Abandoned { at, unswept: true })
}

// Makes an abandoned block the holder's, swept if it was unswept. The answer: whether it has a free cell.
fn take_over(
    words: &mut [usize],
    marks: &[u8],
    heap: &mut [u8],
    wanted: &Wanted,
    next: Abandoned,
) -> bool
    requires { Known wanted.now.space.now.p (length words.old) (length marks.now) (length heap.old) }
    ensures { TakenOver wanted.now.space.now.p marks.now wanted.now.holder.number wanted.now.bin.number (block_at wanted.now.space.now.p next.at.at.0) next.unswept (view words.old) heap.old result (view words.new) heap.new }
{
    let space = wanted.space;
    let b = space.block_at(next.at.at);
    let owner = wanted.holder.owner();
    let own = owner.lists(wanted.bin);
    tables::set_tls(words, b.0, wanted.holder.number);
    if next.unswept {
        block::sweep(space, words, marks, heap, b);
        return file_block(space, words, own, b);
    }
    file_block(space, words, own, b)
}

// Takes over abandoned blocks until one has a free cell. `before` blocks were swept already.
pub(crate) fn acquire_abandoned(
    words: &mut [usize],
    marks: &[u8],
    heap: &mut [u8],
    wanted: &Wanted,
    before: usize,
) -> Found
    requires { (Known wanted.now.space.now.p (length words.old) (length marks.now) (length heap.old)) × (before ≤ 1024) }
    ensures { reached (word_of result.at) result.swept (view words.new) heap.new ≡ closed wanted.now.space.now.p before heap.old (acquire_abandoned wanted.now.space.now.p.blocks wanted.now.space.now.p marks.now wanted.now.holder.number wanted.now.bin.number (view words.old)) }
{
    let mut swept = before;
    for _ in 0..wanted.space.p.blocks {
        let Some(next) = pop_abandoned(wanted.space, words, wanted.bin) else {
            return Found { at: None, swept };
        };
        let free = take_over(words, marks, heap, wanted, next);
        swept += usize::from(next.unswept);
        if free {
            return Found {
                at: Some(next.at),
                swept,
            };
        }
    }
    Found { at: None, swept }
}

// Makes the offered block the holder's, all its cells of the bin's size free.
fn acquire_fresh(words: &mut [usize], states: &mut [u8], heap: &mut [u8], wanted: &Wanted, b: Block)
    requires { Standing wanted.now.space.now.p (length words.old) (length heap.old) b.0 }
    ensures { Freshened wanted.now.space.now.p wanted.now.holder.number wanted.now.bin.number b.0 (view words.old) states.old heap.old (view words.new) states.new heap.new }
{
    let space = wanted.space;
    let owner = wanted.holder.owner();
    let own = owner.lists(wanted.bin);
    let size = size_class::cell_bytes(space.p, wanted.bin.number);
    block_list::push(space, words, own.available, b);
    block::init_block(space, words, heap, b, size, wanted.holder.number);
    states::set_state(states, b.0, block::UNMARKED);
}

// A block from outside the holder's lists: an abandoned one, or the offer. `before` blocks were swept already.
pub(crate) fn acquire_global_block(
    words: &mut [usize],
    states: &mut [u8],
    marks: &[u8],
    heap: &mut [u8],
    wanted: &Wanted,
    before: usize,
) -> Search
    requires { (Known wanted.now.space.now.p (length words.old) (length marks.now) (length heap.old)) × (before ≤ 1024) }
    ensures { ended (end_word result.end) result.swept (end_fresh result.end) (tables_of (view words.new) states.new marks.now) heap.new ≡ closed_search wanted.now.space.now.p before heap.old (acquire_global wanted.now.space.now.p wanted.now.holder.number wanted.now.bin.number wanted.now.request.offer (tables_of (view words.old) states.old marks.now)) }
{
    let found = acquire_abandoned(words, marks, heap, wanted, before);
    let swept = found.swept;
    if let Some(start) = found.at {
        return Search::listed(start, swept);
    }
    match wanted.request.offer {
        None => Search { end: None, swept },
        Some(b) => {
            acquire_fresh(words, states, heap, wanted, b);
            let at = wanted.space.start(b);
            let end = End {
                start: BlockStart { at },
                fresh: true,
            };
            Search {
                end: Some(end),
                swept,
            }
        }
    }
}

// The whole search: the holder's available list is skimmed, its unswept blocks are swept, and then others are tried.
pub(crate) fn find_block(
    words: &mut [usize],
    states: &mut [u8],
    marks: &[u8],
    heap: &mut [u8],
    wanted: &Wanted,
) -> Search
    requires { Known wanted.now.space.now.p (length words.old) (length marks.now) (length heap.old) }
    ensures { ended (end_word result.end) result.swept (end_fresh result.end) (tables_of (view words.new) states.new marks.now) heap.new ≡ closed_search wanted.now.space.now.p 0 heap.old (find_block wanted.now.space.now.p wanted.now.holder.number wanted.now.bin.number wanted.now.request.offer (tables_of (view words.old) states.old marks.now)) }
{
    let bin = wanted.bin;
    let owner = wanted.holder.owner();
    let own = owner.lists(bin);
    if let Some(start) = find_free_block_with(wanted.space, words, own) {
        return Search::listed(start, 0);
    }
    let recycled = recycle_local_blocks(wanted.space, words, marks, heap, owner, bin);
    let swept = recycled.swept;
    if let Some(start) = recycled.at {
        return Search::listed(start, swept);
    }
    acquire_global_block(words, states, marks, heap, wanted, swept)
}

// Finds a block of the bin and takes a cell of it.
fn serve_searched(
    words: &mut [usize],
    states: &mut [u8],
    marks: &[u8],
    heap: &mut [u8],
    wanted: &Wanted,
) -> Result<Served, Unserved>
    requires { (Ready wanted.now.space.now.p (view words.old)) × Known wanted.now.space.now.p (length words.old) (length marks.now) (length heap.old) }
    ensures { stepped (alloc_reply result) (tables_of (view words.new) states.new marks.now) heap.new ≡ ServedBy wanted.now.space.now.p wanted.now.request.align wanted.now.request.offset heap.old (find_block wanted.now.space.now.p wanted.now.holder.number wanted.now.bin.number wanted.now.request.offer (tables_of (view words.old) states.old marks.now)) }
{
    let search = find_block(words, states, marks, heap, wanted);
    let Some(end) = search.end else {
        return Err(Unserved::Exhausted {
            swept: search.swept,
        });
    };
    let b = wanted.space.block_at(end.start.at);
    let taken = block::block_alloc(wanted.space, words, heap, b);
    let request = wanted.request;
    let address = allocator::align_allocation(taken.at, request.align, request.offset);
    Ok(Served {
        address,
        cell_size: taken.size,
        offer_used: end.fresh,
        swept: search.swept,
    })
}

// ---- the short way

// The block at the head of a list, if it has a free cell. Its number is found by a shift, as in `block_from` (sound/lists.rt), which has the
// shift ready for all the links of a walk.
fn free_head(space: &Space, words: &[usize], list: ListNumber) -> Option<Block>
    requires { length words.now ≡ word_count space.now.p }
    ensures { IfSome result (λ (b : TheBlock). (b.0 < space.now.p.blocks) × HasFree space.now.p (view words.now) list.at b.0) }
{
    let base = space.p.base;
    let blocks = space.p.blocks;
    let first = known::first(words, list.at);
    let start = first.0;
    if start < base {
        return None;
    }
    let log = lists::log_of(space);
    let number = (start - base) >> log;
    if blocks <= number {
        return None;
    }
    let cell = known::free(words, blocks, Block(number));
    if cell.0 == 0 {
        return None;
    }
    Some(Block(number))
}

// Takes a cell of the block b, whose free head is a cell. Beside `serve_searched`: they differ in how the cell is taken and in what is told of a
// search, and share the shift of its address.
fn serve_head(
    words: &mut [usize],
    heap: &mut [u8],
    wanted: &Wanted,
    b: Block,
) -> Result<Served, Unserved>
    requires { Takeable wanted.now.space.now.p (view words.old) (length words.old) (length heap.old) b.0 }
    ensures { (st ms : List ℕ) → stepped (alloc_reply result) (tables_of (view words.new) st ms) heap.new ≡ shown (take_cell wanted.now.space.now.p (tables_of (view words.old) st ms) [] heap.old b.0 wanted.now.request.align wanted.now.request.offset false) }
{
    let taken = block::take_head(wanted.space, words, heap, b);
    let request = wanted.request;
    let address = allocator::align_allocation(taken.at, request.align, request.offset);
    Ok(Served {
        address,
        cell_size: taken.size,
        offer_used: false,
        swept: 0,
    })
}

// A cell for a holder, on tables that are sound: of the block at the head of its available list, where that has one, as for most
// allocs, or of one that is searched for.
pub(crate) fn do_alloc(
    space: &Space,
    words: &mut [usize],
    states: &mut [u8],
    marks: &[u8],
    heap: &mut [u8],
    holder: usize,
    request: Request,
) -> Result<Served, Unserved>
    requires { lent_tests space.now.p (lend words.old states.old marks.now heap.old) ≡ Ok tt }
    ensures { Does space.now.p (tables_of (view words.old) states.old marks.now) heap.old (alloc holder request.size request.align request.offset request.offer) (alloc_reply result) (tables_of (view words.new) states.new marks.now) heap.new }
{
    let bin = checks::check_alloc(space, words, states, holder, request)?;
    let wanted = &Wanted {
        space,
        holder: Holder { number: holder },
        bin: Bin { number: bin },
        request,
    };
    let owner = wanted.holder.owner();
    let own = owner.lists(wanted.bin);
    if let Some(b) = free_head(space, words, own.available) {
        return serve_head(words, heap, wanted, b);
    }
    serve_searched(words, states, marks, heap, wanted)
}

// A cell for a holder. Nothing is required: what is lent is tested first.
pub fn alloc(
    p: Params,
    words: &mut [usize],
    states: &mut [u8],
    marks: &[u8],
    heap: &mut [u8],
    holder: usize,
    request: Request,
) -> Result<Served, Unserved>
    ensures { Promised p (lend words.old states.old marks.now heap.old) (alloc holder request.size request.align request.offset request.offer) (alloc_reply result) (lend words.new states.new marks.now heap.new) }
{
    checks::check_lent(p, words, states, marks, heap)?;
    do_alloc(&Space { p }, words, states, marks, heap, holder, request)
}
