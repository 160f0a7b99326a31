// The loops that link a block's free cells, by heap offset: that the cells lie in the heap is known before.
// What they ask of places (`Places`, `Inside`, `Reach`) speaks of the length of the heap, which is lent for writing (lib.rt).
ghost use Rattle.std.specs.Prelude.{◌≡◌, Bool, false, ℕ, ◌+◌, ◌-◌, ◌*◌, ◌/◌, ◌%◌, ◌^◌, ◌≤◌, ◌<◌, length, get_or};
ghost use Rattle.model.specs.Block.{cells_down};
ghost use Rattle.native_ms.specs.Bits.{any_bit, Run};
ghost use Rattle.model.specs.Memory.{bit_of};
ghost use Rattle.native_ms.specs.Block.{kept_by, Linked};
ghost use Rattle.native_ms.specs.Places.{Places, Inside, ByBits, Extends, Reach, Asked, Tells};

use crate::address::Space;
use crate::block::{Cell, marks};
use crate::memory;
use model::{Address, Block};

// Cells one behind the other, from the heap offset `at` on.
#[derive(Clone, Copy)]
pub(crate) struct Span {
    pub at: usize,
    pub size: usize,
    pub count: usize,
}

// Where a linking begins: its cells, the first mark bit of the first of them, and the free head that it goes on from.
#[derive(Clone, Copy)]
pub(crate) struct Begin {
    pub span: Span,
    pub first: usize,
    pub head: usize,
}

// The free head after some cells were linked, and how many were.
#[derive(Clone, Copy)]
pub(crate) struct Chain {
    pub head: usize,
    pub count: usize,
}

impl Span {
    // All whole cells of the block.
    #[tactic(auto, using(crate::proofs::Limits::block_few, crate::proofs::Limits::block_ends))]
    pub(crate) fn of_block(space: &Space, b: Block, size: usize) -> Span
        requires { (b.0 < space.now.p.blocks) × (0 < size) }
        ensures { (result.at ≡ b.0 * space.now.p.bytes) × (result.size ≡ size) × (result.count ≡ space.now.p.bytes / size) }
    {
        Span {
            at: b.0 * space.p.bytes,
            size,
            count: space.p.bytes / size,
        }
    }

    // The cells behind the first ones.
    fn behind(self, skipped: usize) -> Span
        requires { (skipped ≤ self.count) × (self.at + skipped * self.size < 2 ^ 64) }
        ensures { (result.at ≡ self.at + skipped * self.size) × (result.size ≡ self.size) × (result.count ≡ self.count - skipped) }
    {
        Span {
            at: self.at + skipped * self.size,
            count: self.count - skipped,
            ..self
        }
    }
}

impl Chain {
    // The chain behind its first cell, which held `link`.
    pub(crate) fn behind(self, link: usize) -> Chain
        ensures { (result.head ≡ link) × (result.count ≡ self.count - 1) }
    {
        Chain {
            head: link,
            count: self.count.saturating_sub(1),
        }
    }
}

// Links those of the cells that `kept` doesn't keep, each to the one below it; it is asked by a cell's offset and by its first mark
// bit, a bit for each word.
// Both are counted up: reckoned from the cell's number, a turn takes up to a quarter more instructions. The heap's base is read once:
// each cell that is linked would read it anew.
fn link_unkept<K: Fn(usize, usize) -> bool>(
    space: &Space,
    heap: &mut [u8],
    begin: Begin,
    kept: K,
) -> Chain
    requires cells { Places space.now.p (length heap.old) begin.span.at begin.span.size begin.span.count }
    requires bits { 8 * begin.first + begin.span.count * begin.span.size ≤ length heap.old }
    requires asked { Asked (K.pre kept) begin.span.size begin.span.at begin.span.count begin.first }
    ensures { (keeps : ℕ → Bool) → Tells space.now.p (K.post kept) keeps begin.span.size begin.span.at begin.span.count begin.first → Extends space.now.p keeps begin.span.size begin.span.at begin.span.count begin.head heap.old result.head result.count heap.new }
{
    let base = space.p.base;
    let size = begin.span.size;
    let words = size / 8;
    let mut offset = begin.span.at;
    let mut bit = begin.first;
    let mut last = begin.head;
    let mut linked: usize = 0;
    for _ in 0..begin.span.count {
        if !kept(offset, bit) {
            memory::put_word(heap, offset, last);
            last = base + offset;
            linked += 1;
        }
        offset += size;
        bit += words;
    }
    Chain {
        head: last,
        count: linked,
    }
}

// Links all cells of the span, each to the one below it. The answer is the free head.
pub(crate) fn link_cells(space: &Space, heap: &mut [u8], span: Span) -> usize
    requires { Places space.now.p (length heap.old) span.at span.size span.count }
    ensures { Linked space.now.p (cells_down (λ a. false) (space.now.p.base + span.at) span.size span.count) heap.old result heap.new }
{
    let begin = Begin {
        span,
        first: 0,
        head: 0,
    };
    let chain = link_unkept(
        space,
        heap,
        begin,
        |_, _|
            ensures { result ≡ false }
        { false },
    );
    chain.head
}

// Links those of the cells whose first mark bit is clear.
pub(crate) fn link_by_bit(space: &Space, marks: &[u8], heap: &mut [u8], begin: Begin) -> Chain
    requires { Inside space.now.p (length marks.now) (length heap.old) begin.span.at begin.span.size begin.span.count begin.first }
    ensures { (kept : ℕ → Bool) → ByBits space.now.p marks.now kept begin.span.size begin.span.at (begin.span.at + begin.span.count * begin.span.size) begin.first 1 → Extends space.now.p kept begin.span.size begin.span.at begin.span.count begin.head heap.old result.head result.count heap.new }
{
    link_unkept(
        space,
        heap,
        begin,
        |_, bit|
            requires { bit / 8 < length marks.now }
            ensures { result ≡ bit_of (get_or marks.entry.now (bit / 8) 0) (bit % 8) }
        { memory::bit(marks, bit) },
    )
}

// The same where each word of a cell has a bit, and one that is set keeps it; of cells of eight words, whose bits are those of one
// byte or lie across two, each time in the same way: what is shifted out is known before the loop.
fn link_eight(space: &Space, marks: &[u8], heap: &mut [u8], begin: Begin) -> Chain
    requires { (Inside space.now.p (length marks.now) (length heap.old) begin.span.at begin.span.size begin.span.count begin.first) × (begin.span.size ≡ 64) }
    ensures { (kept : ℕ → Bool) → ByBits space.now.p marks.now kept begin.span.size begin.span.at (begin.span.at + begin.span.count * begin.span.size) begin.first (begin.span.size / 8) → Extends space.now.p kept begin.span.size begin.span.at begin.span.count begin.head heap.old result.head result.count heap.new }
{
    if begin.first % 8 == 0 {
        return link_unkept(
            space,
            heap,
            begin,
            |_, bit|
                requires { (bit / 8 < length marks.now) × (bit % 8 ≡ 0) }
                ensures { result ≡ any_bit marks.entry.now bit 8 }
            { marks::any_whole(marks, bit) },
        );
    }
    let shift = begin.first % 8;
    link_unkept(
        space,
        heap,
        begin,
        |_, bit|
            requires { (bit / 8 + 1 < length marks.now) × (bit % 8 ≡ shift) }
            ensures { result ≡ any_bit marks.entry.now bit 8 }
        { marks::any_window(marks, bit, shift) },
    )
}

// The same of cells of any size.
fn link_inner(space: &Space, marks: &[u8], heap: &mut [u8], begin: Begin) -> Chain
    requires { Inside space.now.p (length marks.now) (length heap.old) begin.span.at begin.span.size begin.span.count begin.first }
    ensures { (kept : ℕ → Bool) → ByBits space.now.p marks.now kept begin.span.size begin.span.at (begin.span.at + begin.span.count * begin.span.size) begin.first (begin.span.size / 8) → Extends space.now.p kept begin.span.size begin.span.at begin.span.count begin.head heap.old result.head result.count heap.new }
{
    let size = begin.span.size;
    if size == 8 {
        return link_by_bit(space, marks, heap, begin);
    }
    if size == 64 {
        return link_eight(space, marks, heap, begin);
    }
    let words = size / 8;
    if size <= 64 {
        return link_unkept(
            space,
            heap,
            begin,
            |_, bit|
                requires { (Run (length marks.now) bit words) × (words ≤ 8) }
                ensures { result ≡ any_bit marks.entry.now bit words }
            { marks::any_few(marks, bit, words) },
        );
    }
    link_unkept(
        space,
        heap,
        begin,
        |_, bit|
            requires { (Run (length marks.now) bit words) × (8 < words) }
            ensures { result ≡ any_bit marks.entry.now bit words }
        { marks::any_many(marks, bit, words) },
    )
}

// Links those of the cells that have no mark at any of their places, some of which may lie outside the heap.
// The closure asks for the bounds of a Cell itself: with none of its clauses written, the Cell in it stayed unproved.
#[tactic(auto, unfolding(crate::specs::Block::kept_by))]
fn link_edge(space: &Space, marks: &[u8], heap: &mut [u8], span: Span, head: usize) -> Chain
    requires { (Places space.now.p (length heap.old) span.at span.size span.count) × (span.size ≤ 65536) }
    ensures { Extends space.now.p (kept_by false space.now.p marks.now span.size) span.size span.at span.count head heap.old result.head result.count heap.new }
{
    let size = span.size;
    let begin = Begin {
        span,
        first: 0,
        head,
    };
    link_unkept(
        space,
        heap,
        begin,
        |offset, _|
            requires { (space.now.p.base + offset ≤ 2 ^ 50) × (size ≤ 65536) }
            ensures { result ≡ kept_by false space.entry.now.p marks.entry.now size (space.entry.now.p.base + offset) }
        {
            let at = Address(space.p.base + offset);
            marks::any_marked(space, marks, Cell { at, size })
        },
    )
}

// Links those of the cells that have no mark at any of their places, none of which lies below the heap. `up` is L + 64.
fn link_from(
    space: &Space,
    marks: &[u8],
    heap: &mut [u8],
    span: Span,
    up: usize,
    head: usize,
) -> Chain
    requires { (Reach space.now.p (length marks.now) (length heap.old) span.at span.size span.count up) × (64 ≤ span.at + up) }
    ensures { Extends space.now.p (kept_by false space.now.p marks.now span.size) span.size span.at span.count head heap.old result.head result.count heap.new }
{
    let at = span.at;
    let size = span.size;
    let end = heap.len() + 64;
    let first = (at + up - 64) / 8;
    if at + span.count * size + up <= end {
        let begin = Begin { span, first, head };
        return link_inner(space, marks, heap, begin);
    }
    if end < at + up {
        return link_edge(space, marks, heap, span, head);
    }
    let inner = (end - (at + up)) / size;
    let before = Span {
        count: inner,
        ..span
    };
    let begin = Begin {
        span: before,
        first,
        head,
    };
    let linked = link_inner(space, marks, heap, begin);
    let rest = link_edge(space, marks, heap, span.behind(inner), linked.head);
    let count = linked.count + rest.count;
    Chain {
        head: rest.head,
        count,
    }
}

// Links those of the cells that have no mark at any of their places: the cells whose places lie in the heap by whole bytes.
pub(crate) fn link_brute(
    space: &Space,
    marks: &[u8],
    heap: &mut [u8],
    span: Span,
    up: usize,
) -> Chain
    requires { Reach space.now.p (length marks.now) (length heap.old) span.at span.size span.count up }
    ensures { Extends space.now.p (kept_by false space.now.p marks.now span.size) span.size span.at span.count 0 heap.old result.head result.count heap.new }
{
    let at = span.at;
    let size = span.size;
    if 64 <= at + up {
        return link_from(space, marks, heap, span, up, 0);
    }
    let below = (64 - (at + up) + (size - 1)) / size;
    if span.count <= below {
        return link_edge(space, marks, heap, span, 0);
    }
    let under = Span {
        count: below,
        ..span
    };
    let edge = link_edge(space, marks, heap, under, 0);
    let rest = link_from(space, marks, heap, span.behind(below), up, edge.head);
    let count = edge.count + rest.count;
    Chain {
        head: rest.head,
        count,
    }
}
