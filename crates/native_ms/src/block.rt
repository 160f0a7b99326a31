// A block: its cells, the two sweeps and the choice between them, init, the taking of a cell, release. Named after the
// Rust's block.rs, with `init_block` and `block_alloc` of free_list_allocator.rs.
#![tactic(auto, unfolding(model::specs::Params::word_count))]

mod chain;
mod known;
mod marks;

ghost use Rattle.std.specs.Prelude.{◌≡◌, Bool, true, false, ◌||◌, ◌*◌, ◌/◌, ◌^◌, ◌≤◌, ◌<◌, eqb, length, get_or};
ghost use Rattle.model.specs.Params.{word_count, lower_ok, biased};
ghost use Rattle.model.specs.Tables.{view};
ghost use Rattle.model.specs.Block.{simple, cell_count, cells_down, is_cell};
ghost use Rattle.native_ms.specs.Block.{kept_by, Room, Built, SweptBy, Swept, Initialised, Cleared, took, take_free};
ghost use Rattle.native_ms.specs.Places.{Known, WholeWords, Standing, Takeable, Reach, Extends};

use crate::address::Space;
use crate::block::chain::{Begin, Chain, Span};
use crate::memory;
use model::{Address, Block, Params};
pub(crate) use words::states::{MARKED, UNALLOCATED, UNMARKED};
use words::tables::Table;
use words::{states, tables};

// The cell that was taken.
#[derive(Clone, Copy)]
pub(crate) struct Taken {
    pub at: Address,
    pub size: usize,
}

// A cell whose marks are read: low and small enough for the places in it to be numbers.
#[derive(Clone, Copy)]
pub(crate) struct Cell {
    pub at: Address,
    pub size: usize,
    ghost low: { at.0 ≤ 2 ^ 50 },
    ghost small: { size ≤ 65536 },
}

// L + 64, so that all else is unsigned.
#[tactic(auto, using(crate::proofs::Lower::sum_fits, crate::proofs::Lower::sum_back, crate::proofs::Lower::sum_low))]
pub(crate) fn biased(l: i64) -> usize
    requires { lower_ok l ≡ true }
    ensures { result ≡ biased l }
{
    (l + 64) as usize
}

// Whether the simple sweep will do: a cell's address is that of its object.
#[tactic(auto, unfolding(model::specs::Block::simple))]
pub(crate) fn is_simple(p: Params) -> bool
    ensures { result ≡ simple p }
{
    !p.offsets && p.min == p.max && p.unified
}

// A sweep, by the cells that it keeps and by its own way through a block whose cells are of whole words.
pub(crate) trait Sweeper {
    ghost simple: { Bool };

    // Whether it keeps the cell.
    fn keeps(space: &Space, marks: &[u8], cell: Cell) -> bool
        ensures { result ≡ kept_by simple space.now.p marks.now cell.size cell.at.0 };

    // Links the cells of the span that it doesn't keep.
    fn link(space: &Space, marks: &[u8], heap: &mut [u8], span: Span) -> Chain
        requires { Reach space.now.p (length marks.now) (length heap.old) span.at span.size span.count (biased space.now.p.lower) }
        ensures { Extends space.now.p (kept_by simple space.now.p marks.now span.size) span.size span.at span.count 0 heap.old result.head result.count heap.new };
}

// Frees each whole cell with no mark at its start.
pub(crate) struct SimpleSweep;

impl Sweeper for SimpleSweep {
    ghost simple = { true };

    #[tactic(auto, unfolding(crate::specs::Block::kept_by))]
    fn keeps(space: &Space, marks: &[u8], cell: Cell) -> bool {
        memory::is_marked(space, marks, cell.at)
    }

    fn link(space: &Space, marks: &[u8], heap: &mut [u8], span: Span) -> Chain {
        let begin = Begin {
            span,
            first: span.at / 8,
            head: 0,
        };
        chain::link_by_bit(space, marks, heap, begin)
    }
}

// Frees each whole cell with no mark at any of its places.
pub(crate) struct NaiveBruteForceSweep;

impl Sweeper for NaiveBruteForceSweep {
    ghost simple = { false };

    #[tactic(auto, unfolding(crate::specs::Block::kept_by))]
    fn keeps(space: &Space, marks: &[u8], cell: Cell) -> bool {
        marks::any_marked(space, marks, cell)
    }

    fn link(space: &Space, marks: &[u8], heap: &mut [u8], span: Span) -> Chain {
        chain::link_brute(space, marks, heap, span, up_by(space))
    }
}

// L + 64 of good parameters.
#[tactic(auto, using(crate::proofs::Lower::lower_good, crate::proofs::Lower::lower_back))]
fn up_by(space: &Space) -> usize
    ensures { result ≡ biased space.now.p.lower }
{
    biased(space.p.lower)
}

// Whether the sweep that the parameters choose keeps the cell.
pub(crate) fn cell_is_marked(space: &Space, marks: &[u8], cell: Cell) -> bool
    ensures { result ≡ kept_by (simple space.now.p) space.now.p marks.now cell.size cell.at.0 }
{
    if is_simple(space.p) {
        return SimpleSweep::keeps(space, marks, cell);
    }
    NaiveBruteForceSweep::keeps(space, marks, cell)
}

// How many whole cells of this size a block has; the short tail is none.
#[tactic(auto, using(crate::proofs::Chains::count_none), unfolding(model::specs::Block::cell_count))]
pub(crate) fn cell_count(p: Params, size: usize) -> usize
    ensures { result ≡ cell_count p size }
{
    p.bytes.checked_div(size).unwrap_or(0)
}

// Links those of the cells that the sweep doesn't keep, each to the one below it: `count` cells of `size` bytes from `from` on.
// Beside `link_unkept`, which writes at heap offsets that are known to be there: here each place is tested, for cells of any size speed being what
// the other is for.
fn link_unmarked<S: Sweeper>(
    space: &Space,
    marks: &[u8],
    heap: &mut [u8],
    from: Address,
    size: usize,
    count: usize,
) -> Chain
    requires { Room space.now.p from.0 size count }
    ensures { Built space.now.p (cells_down (kept_by S.simple space.now.p marks.now size) from.0 size count) heap.old result.head result.count heap.new }
{
    let mut last: usize = 0;
    let mut linked: usize = 0;
    for seen in 0..count {
        let at = Address(from.0 + seen * size);
        if !S::keeps(space, marks, Cell { at, size }) {
            memory::store(space.p, heap, at, last);
            last = at.0;
            linked += 1;
        }
    }
    Chain {
        head: last,
        count: linked,
    }
}

// Whether cells of this size are of whole words, as in sound tables they are: then those of a block lie in the heap, word by word.
fn is_whole_words(size: usize) -> bool
    ensures { result ≡ true → WholeWords size }
{
    8 <= size && size <= 65536 && size % 8 == 0
}

// Frees each whole cell of the block that the sweep doesn't keep.
fn sweep_by<S: Sweeper>(space: &Space, words: &mut [usize], marks: &[u8], heap: &mut [u8], b: Block)
    requires { Known space.now.p (length words.old) (length marks.now) (length heap.old) }
    ensures { SweptBy space.now.p (kept_by S.simple space.now.p marks.now) b.0 (view words.old) heap.old (view words.new) heap.new }
{
    let blocks = space.p.blocks;
    let size = known::cells_of(words, blocks, b).size;
    let chain = if is_whole_words(size) {
        let span = Span::of_block(space, b, size);
        S::link(space, marks, heap, span)
    } else {
        let count = cell_count(space.p, size);
        let from = space.start(b);
        link_unmarked::<S>(space, marks, heap, from, size, count)
    };
    known::set_chain(words, blocks, b, chain);
}

// The sweep that the parameters choose.
pub(crate) fn sweep(space: &Space, words: &mut [usize], marks: &[u8], heap: &mut [u8], b: Block)
    requires { Known space.now.p (length words.old) (length marks.now) (length heap.old) }
    ensures { Swept space.now.p marks.now b.0 (view words.old) heap.old (view words.new) heap.new }
{
    if is_simple(space.p) {
        sweep_by::<SimpleSweep>(space, words, marks, heap, b);
        return;
    }
    sweep_by::<NaiveBruteForceSweep>(space, words, marks, heap, b);
}

// Makes the block one of whole cells of this size, all free, for a holder.
pub(crate) fn init_block(
    space: &Space,
    words: &mut [usize],
    heap: &mut [u8],
    b: Block,
    size: usize,
    tls: usize,
)
    requires { (Standing space.now.p (length words.old) (length heap.old) b.0) × (8 ≤ size) }
    ensures { Initialised space.now.p b.0 size tls (view words.old) heap.old (view words.new) heap.new }
{
    let blocks = space.p.blocks;
    let span = Span::of_block(space, b, size);
    let head = chain::link_cells(space, heap, span);
    let count = span.count;
    known::set_chain(words, blocks, b, Chain { head, count });
    known::set_word(words, blocks, Table::Size, b, size);
    known::set_word(words, blocks, Table::Tls, b, tls);
}

// Release: all words of the block and its state are 0 again.
pub(crate) fn clear_block(words: &mut [usize], states: &mut [u8], b: Block)
    ensures { Cleared b.0 (view words.old) states.old (view words.new) states.new }
{
    let i = b.0;
    tables::set_next(words, i, 0);
    tables::set_prev(words, i, 0);
    tables::set_free(words, i, 0);
    tables::set_size(words, i, 0);
    tables::set_list(words, i, 0);
    tables::set_tls(words, i, 0);
    tables::set_cells(words, i, 0);
    states::set_state(states, i, UNALLOCATED);
}

// A whole cell of `size` bytes of the block b stands at a. The division is last and a short one, of numbers that are small by then.
// A ladder: joined by `&&` it would be no plainer, since `inside` is reckoned between the tests, from what they leave.
#[tactic(auto, using(crate::proofs::Limits::bytes_few, crate::proofs::SoundTests::cell_none, crate::proofs::SoundTests::cell_before, crate::proofs::SoundTests::cell_large, crate::proofs::SoundTests::cell_past, crate::proofs::SoundTests::cell_here))]
pub(crate) fn is_cell(space: &Space, b: Block, size: usize, a: Address) -> bool
    ensures { result ≡ is_cell space.now.p b.0 size a.0 }
{
    let start = space.start(b);
    let from = start.0;
    let at = a.0;
    let bytes = space.p.bytes;
    if size == 0 {
        return false;
    }
    if at < from {
        return false;
    }
    if bytes < size {
        return false;
    }
    let inside = at - from;
    if bytes - size < inside {
        return false;
    }
    (inside as u32) % (size as u32) == 0
}

// A link of the block b, whose cells have `size` bytes: 0 or a whole cell of it.
pub(crate) fn link_ok(space: &Space, b: Block, size: usize, a: Address) -> bool
    ensures { result ≡ (eqb a.0 0 || is_cell space.now.p b.0 size a.0) }
{
    a.0 == 0 || is_cell(space, b, size, a)
}

// Takes the cell at the block's free head. Its link is read before the whole cell is zeroed: the link lies in it.
pub(crate) fn block_alloc(space: &Space, words: &mut [usize], heap: &mut [u8], b: Block) -> Taken
    requires { length words.old ≡ word_count space.now.p }
    ensures { took result (view words.new) heap.new ≡ take_free space.now.p b.0 (view words.old) heap.old }
{
    let blocks = space.p.blocks;
    let cells = known::cells_of(words, blocks, b);
    let size = cells.size;
    let at = Address(cells.free.head);
    let link = memory::load(space.p, heap, at);
    known::set_chain(words, blocks, b, cells.free.behind(link));
    memory::zero(space.p, heap, at, size);
    Taken { at, size }
}

// The same of a block whose free head is known to be a cell of it: no place is tested again.
// Beside `block_alloc`, not one function that is given the two steps on the heap: a trait of these would be longer than what they share.
pub(crate) fn take_head(space: &Space, words: &mut [usize], heap: &mut [u8], b: Block) -> Taken
    requires { Takeable space.now.p (view words.old) (length words.old) (length heap.old) b.0 }
    ensures { took result (view words.new) heap.new ≡ take_free space.now.p b.0 (view words.old) heap.old }
{
    let blocks = space.p.blocks;
    let cells = known::cells_of(words, blocks, b);
    let size = cells.size;
    let at = Address(cells.free.head);
    let offset = at.0 - space.p.base;
    let next = memory::word_at(heap, offset);
    known::set_chain(words, blocks, b, cells.free.behind(next));
    memory::clear(heap, offset, size);
    Taken { at, size }
}
