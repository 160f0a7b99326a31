// The sections on blocks and free cells.
ghost use Rattle.std.specs.Prelude.{◌≡◌, length, count_by};
ghost use Rattle.std.specs.List.{range_with_len};
ghost use mathlib.Core.List.{[], map, flatten, flat_map};
ghost use Rattle.model.specs.Tables.{view};
ghost use Rattle.model.specs.Sound.{set_named};
ghost use Rattle.model.specs.Census.{block_row, awaits_sweep, printed_chain, free_rows};
ghost use Rattle.listing.specs.Print.{Puts};
ghost use Rattle.listing.specs.Sections.{tables_read, is_occupied, occupied_in, blocks_text, free_text};

use crate::print::{self, Page};
use crate::space::BLOCKS;
use crate::{Standing, chain};
use model::{BINS, Block};
use words::{states, tables};

impl<'a> Standing<'a> {
    // Whether the block is not Unallocated.
    #[tactic(auto, unfolding(crate::specs::Sections::is_occupied))]
    fn is_occupied(&self, b: Block) -> bool
        ensures { result ≡ is_occupied self.now.states.now b.0 }
    {
        states::state(self.states, b.0) != states::UNALLOCATED
    }

    fn count_blocks(&self) -> usize
        ensures { result ≡ count_by (λ b. is_occupied self.now.states.now b) (range_with_len 0 4) }
    {
        (0..BLOCKS)
            .filter(|block| self.is_occupied(Block(*block)))
            .count()
    }

    // The set of the list that the block names. No Option: `set_named` of specs/ is 0 where it names none, and the letter is printed by that.
    #[tactic(auto, unfolding(model::specs::Sound::list_named, model::specs::Sound::set_named))]
    fn set_named(&self, b: Block) -> usize
        ensures { result ≡ set_named (view self.now.words.now) b.0 }
    {
        let list = tables::list(self.words, b.0);
        if list == 0 {
            return 0;
        }
        (list - 1) / BINS
    }

    fn block_row(&self, page: &mut Page<'_>, b: Block)
        ensures { Puts page.old page.new (block_row (tables_read self.now.words.now self.now.states.now []) b.0) }
    {
        let state = usize::from(states::state(self.states, b.0));
        let size = tables::size(self.words, b.0);
        let list = print::list_letter(self.set_named(b));
        let holder = tables::tls(self.words, b.0);
        page.block_row(b.0, state, size, list, holder);
    }

    // Two loops over the occupied blocks, this and `cell_rows`: one that takes a closure would promise, of any closure, as much in more words.
    fn block_rows(&self, page: &mut Page<'_>)
        ensures { Puts page.old page.new (flatten (map (block_row (tables_read self.now.words.now self.now.states.now [])) (occupied_in self.now.states.now))) }
    {
        for block in 0..BLOCKS {
            if self.is_occupied(Block(block)) {
                self.block_row(page, Block(block));
            }
        }
    }

    // The blocks that are not Unallocated.
    pub(crate) fn blocks_section(&self, page: &mut Page<'_>)
        ensures { Puts page.old page.new (blocks_text self.now.words.now self.now.states.now) }
    {
        page.head(b"blocks", self.count_blocks());
        self.block_rows(page);
    }

    // Whether the block is on list U, u or g: by the letter, as the definition has it.
    fn awaits_sweep(&self, b: Block) -> bool
        ensures { result ≡ awaits_sweep (view self.now.words.now) b.0 }
    {
        let list = print::list_letter(self.set_named(b));
        matches!(list, b'U' | b'u' | b'g')
    }

    // Which cells are printed for a block is chosen here and in `rows_of`: one that gave them to a closure would be longer than both.
    fn count_of(&self, b: Block) -> usize
        ensures { result ≡ length (printed_chain (tables_read self.now.words.now [] self.now.marks.now) self.now.heap.now b.0) }
    {
        if self.awaits_sweep(b) {
            return chain::count_swept(self, b);
        }
        chain::count(self, b)
    }

    fn rows_of(&self, page: &mut Page<'_>, b: Block)
        ensures { Puts page.old page.new (flatten (free_rows (tables_read self.now.words.now [] self.now.marks.now) self.now.heap.now b.0)) }
    {
        if self.awaits_sweep(b) {
            chain::rows_swept(page, self, b);
            return;
        }
        chain::rows(page, self, b);
    }

    fn count_cells(&self) -> usize
        ensures { result ≡ length (flat_map (free_rows (tables_read self.now.words.now self.now.states.now self.now.marks.now) self.now.heap.now) (occupied_in self.now.states.now)) }
    {
        (0..BLOCKS)
            .filter(|block| self.is_occupied(Block(*block)))
            .map(|block| self.count_of(Block(block)))
            .sum()
    }

    fn cell_rows(&self, page: &mut Page<'_>)
        ensures { Puts page.old page.new (flatten (flat_map (free_rows (tables_read self.now.words.now self.now.states.now self.now.marks.now) self.now.heap.now) (occupied_in self.now.states.now))) }
    {
        for block in 0..BLOCKS {
            if self.is_occupied(Block(block)) {
                self.rows_of(page, Block(block));
            }
        }
    }

    // The free cells of each; none while marking goes on.
    pub(crate) fn free_section(&self, page: &mut Page<'_>)
        ensures { Puts page.old page.new (free_text self.now.words.now self.now.states.now self.now.marks.now self.now.heap.now) }
    {
        if tables::phase(self.words) == tables::MARKING {
            page.head(b"free", 0);
            return;
        }
        page.head(b"free", self.count_cells());
        self.cell_rows(page);
    }
}
