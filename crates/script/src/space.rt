// The memory that the driver lends to the library.
ghost use Rattle.std.specs.Prelude.{◌≤◌};

use model::{BLOCK_TABLES, HEAD_WORDS, MAX_BYTES, Params};

// At most 4 MiB of arena, and the tables of 1,024 blocks.
pub(crate) const BLOCKS: usize = 1024;

pub(crate) const WORDS: usize = HEAD_WORDS + BLOCK_TABLES * BLOCKS;

pub(crate) const MARKS: usize = HEAP / BYTES_OF_A_MARK;

pub(crate) const HEAP: usize = 4194304;

// How many heap bytes share a mark byte.
const BYTES_OF_A_MARK: usize = 64;

// All of it.
#[derive(Drop)]
pub(crate) struct Memory {
    pub words: [usize; WORDS],
    pub states: [u8; BLOCKS],
    pub marks: [u8; MARKS],
    pub heap: [u8; HEAP],
}

// The parts of it that a set-up's parameters ask for.
#[derive(Drop)]
pub(crate) struct Lent<'a> {
    pub words: &'a mut [usize],
    pub states: &'a mut [u8],
    pub marks: &'a mut [u8],
    pub heap: &'a mut [u8],
}

// None where there are more blocks than any space has, or larger ones: such parameters are refused, and no heap is filled for them.
fn heap_bytes(p: &Params) -> usize {
    if BLOCKS < p.blocks || MAX_BYTES < p.bytes {
        return 0;
    }
    p.blocks * p.bytes
}

// The blocks that get tables; none of too many.
fn table_blocks(p: &Params) -> usize
    ensures { result ≤ 1024 }
{
    if BLOCKS < p.blocks {
        return 0;
    }
    p.blocks
}

// Whether the heap of these parameters has room.
pub(crate) fn has_room(p: &Params) -> bool {
    heap_bytes(p) <= HEAP
}

// The first n of them, or all if there are fewer.
pub(crate) fn first<T>(all: &mut [T], n: usize) -> &mut [T] {
    let n = n.min(all.len());
    &mut all[..n]
}

impl Memory {
    // Parts of the exact lengths. Parameters that are off may get less, since they are refused.
    pub(crate) fn lend(&mut self, p: &Params) -> Lent<'_> {
        let blocks = table_blocks(p);
        let bytes = heap_bytes(p);
        Lent {
            words: first(
                self.words.as_mut_slice(),
                HEAD_WORDS + BLOCK_TABLES * blocks,
            ),
            states: first(self.states.as_mut_slice(), blocks),
            marks: first(self.marks.as_mut_slice(), bytes / BYTES_OF_A_MARK),
            heap: first(self.heap.as_mut_slice(), bytes),
        }
    }
}
