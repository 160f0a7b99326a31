// The cells of one block, counted and printed: along its free chain, and those that a sweep of it now would free.
ghost use Rattle.std.specs.Prelude.{◌≡◌, length};
ghost use Rattle.std.specs.Iterator.{YieldsFirst, at_most};
ghost use mathlib.Core.List.{flatten};
ghost use Rattle.model.specs.Tables.{view};
ghost use Rattle.model.specs.Block.{free_chain};
ghost use Rattle.model.specs.Census.{census_params};
ghost use Rattle.listing.specs.Print.{Puts};
ghost use Rattle.listing.specs.Sections.{cells_of, cell_rows, chain_swept};

use crate::print::Page;
use crate::{Standing, space};
use model::{Block, ChainWalk};
use native_ms::free_chain;

// The addresses of the cells that a walk along a free chain still meets.
#[derive(Drop)]
struct Cells<'a> {
    heap: &'a [u8],
    walk: ChainWalk,
}

impl<'a> Cells<'a> {
    fn of(standing: &Standing<'a>, b: Block) -> Cells<'a>
        ensures { cells_of result.heap.now result.walk ≡ free_chain census_params standing.now.heap.now b.0 (view standing.now.words.now) }
    {
        let walk = free_chain::first(space::params(), standing.words, b);
        Cells {
            heap: standing.heap,
            walk,
        }
    }
}

impl<'a> Iterator for Cells<'a> {
    type Item = usize;

    ghost next_gives = { YieldsFirst (λ s. cells_of s.heap.now s.walk) };

    ghost remaining = { λ s. at_most s.walk.left };

    fn next(&mut self) -> Option<usize> {
        let p = space::params();
        if !free_chain::more(p, self.walk) {
            return None;
        }
        let cell = self.walk.at.0;
        self.walk = free_chain::next(p, self.heap, self.walk);
        Some(cell)
    }
}

pub(crate) fn count(standing: &Standing<'_>, b: Block) -> usize
    ensures { result ≡ length (free_chain census_params standing.now.heap.now b.0 (view standing.now.words.now)) }
{
    Cells::of(standing, b).count()
}

pub(crate) fn rows(page: &mut Page<'_>, standing: &Standing<'_>, b: Block)
    ensures { Puts page.old page.new (flatten (cell_rows b.0 (free_chain census_params standing.now.heap.now b.0 (view standing.now.words.now)))) }
{
    for cell in Cells::of(standing, b) {
        page.pair_row(b.0, cell);
    }
}

pub(crate) fn count_swept(standing: &Standing<'_>, b: Block) -> usize
    ensures { result ≡ length (chain_swept standing.now.words.now standing.now.marks.now b.0) }
{
    let p = space::params();
    let marks = standing.marks;
    let w = free_chain::first(p, standing.words, b);
    (0..w.left)
        .filter(|cell| free_chain::frees_cell(p, marks, b, w.size, *cell))
        .count()
}

// A sweep links the highest cell first.
pub(crate) fn rows_swept(page: &mut Page<'_>, standing: &Standing<'_>, b: Block)
    ensures { Puts page.old page.new (flatten (cell_rows b.0 (chain_swept standing.now.words.now standing.now.marks.now b.0))) }
{
    let p = space::params();
    let marks = standing.marks;
    let w = free_chain::first(p, standing.words, b);
    for cell in (0..w.left).rev() {
        let free = free_chain::cell_at(p, b, w.size, cell);
        let is_free = free_chain::frees_cell(p, marks, b, w.size, cell);
        if is_free {
            page.pair_row(b.0, free.0);
        }
    }
}
