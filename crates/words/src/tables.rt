// The table words: all tables in one slice, in the order of `view`. Each access tests its index; past the end of a table
// there is a 0, and nothing is written.
#![tactic(auto, unfolding(model::specs::Tables::view, model::specs::Tables::put_first, model::specs::Tables::put_last, model::specs::Tables::put_phase, model::specs::Tables::put_bound, model::specs::Tables::put_released, model::specs::Tables::put_next, model::specs::Tables::put_prev, model::specs::Tables::put_free, model::specs::Tables::put_size, model::specs::Tables::put_list, model::specs::Tables::put_tls, model::specs::Tables::put_cells))]

ghost use Rattle.std.specs.Prelude.{◌≡◌, ◌+◌, ◌*◌, ◌<◌, get_or};
ghost use Rattle.model.specs.Params.{block_tables};
ghost use Rattle.model.specs.Tables.{view, part, blocks_in, block_table, put_in, put_block_word, put_first, put_last, put_phase, put_bound, put_released, put_next, put_prev, put_free, put_size, put_list, put_tls, put_cells};
ghost use Rattle.words.specs.Table.{table_number};

use model::{
    BLOCK_TABLES, BOUND_WORDS, HEAD_WORDS, HOLDERS, LISTS, PARTS, PHASE_WORD, RELEASED_WORDS,
};

// The phases, as 01 numbers them. No enum: a lent word may hold any number, so that each comparison would first need a TryFrom, no plainer.
pub const RUNNING: usize = 0;

pub const MARKING: usize = 1;

pub const RELEASING: usize = 2;

// The block tables, in the order of `view`.
#[derive(Clone, Copy)]
pub enum Table {
    Next,
    Prev,
    Free,
    Size,
    List,
    Tls,
    Cells,
}

impl Table {
    // How many block tables stand before it.
    pub fn number(self) -> usize
        ensures { (result ≡ table_number self) × (result < block_tables) }
    {
        self as usize
    }
}

// How many blocks the words are for.
pub fn blocks(w: &[usize]) -> usize
    ensures { result ≡ blocks_in w.now }
{
    w.len().saturating_sub(HEAD_WORDS) / BLOCK_TABLES
}

// The word i of `count` words from the word `from` on. A stretch and not a slice of the words: one that is cut short, or not there, reads 0.
fn word(w: &[usize], from: usize, count: usize, i: usize) -> usize
    ensures { result ≡ get_or (part from count w.now) i 0 }
{
    if i < count && from < w.len() && i < w.len() - from {
        return w[from + i];
    }
    0
}

fn put(w: &mut [usize], from: usize, count: usize, i: usize, v: usize)
    ensures { w.new ≡ put_in from count i v w.old }
{
    if i < count && from < w.len() && i < w.len() - from {
        w[from + i] = v;
    }
}

// The word of the block i in a block table.
fn block_word(w: &[usize], table: Table, i: usize) -> usize
    ensures { result ≡ get_or (block_table (blocks_in w.now) (table_number table) w.now) i 0 }
{
    let blocks_in = blocks(w);
    word(w, HEAD_WORDS + table.number() * blocks_in, blocks_in, i)
}

fn put_block_word(w: &mut [usize], table: Table, i: usize, v: usize)
    ensures { w.new ≡ put_block_word (table_number table) i v w.old }
{
    let blocks_in = blocks(w);
    put(w, HEAD_WORDS + table.number() * blocks_in, blocks_in, i, v);
}

// A function for each table, `set_bound` beside `set_released` too: one function with a parameter that names the table would be no
// plainer, since each contract cites its table's own definition (`tables::next(w, i)` beside `tables::word(w, Table::Next, i)`).
pub fn phase(w: &[usize]) -> usize
    ensures { result ≡ (view w.now).phase }
{
    word(w, PHASE_WORD, 1, 0)
}

pub fn set_phase(w: &mut [usize], v: usize)
    ensures { w.new ≡ put_phase v w.old }
{
    put(w, PHASE_WORD, 1, 0, v);
}

// Of the list i: its first block, by start address.
pub fn first(w: &[usize], i: usize) -> usize
    ensures { result ≡ get_or (view w.now).first i 0 }
{
    word(w, 0, LISTS, i)
}

pub fn set_first(w: &mut [usize], i: usize, v: usize)
    ensures { w.new ≡ put_first i v w.old }
{
    put(w, 0, LISTS, i, v);
}

// Its last block.
pub fn last(w: &[usize], i: usize) -> usize
    ensures { result ≡ get_or (view w.now).last i 0 }
{
    word(w, LISTS, LISTS, i)
}

pub fn set_last(w: &mut [usize], i: usize, v: usize)
    ensures { w.new ≡ put_last i v w.old }
{
    put(w, LISTS, LISTS, i, v);
}

// Whether the holder i + 1 is bound, as 1 or 0.
pub fn bound(w: &[usize], i: usize) -> usize
    ensures { result ≡ get_or (view w.now).bound i 0 }
{
    word(w, BOUND_WORDS, HOLDERS, i)
}

pub fn set_bound(w: &mut [usize], i: usize, v: usize)
    ensures { w.new ≡ put_bound i v w.old }
{
    put(w, BOUND_WORDS, HOLDERS, i, v);
}

// Whether the holder i, or at 0 the shared part, has released in this collection.
pub fn released(w: &[usize], i: usize) -> usize
    ensures { result ≡ get_or (view w.now).released i 0 }
{
    word(w, RELEASED_WORDS, PARTS, i)
}

pub fn set_released(w: &mut [usize], i: usize, v: usize)
    ensures { w.new ≡ put_released i v w.old }
{
    put(w, RELEASED_WORDS, PARTS, i, v);
}

// Of the block i: the next on its list, by start address.
pub fn next(w: &[usize], i: usize) -> usize
    ensures { result ≡ get_or (view w.now).next i 0 }
{
    block_word(w, Table::Next, i)
}

pub fn set_next(w: &mut [usize], i: usize, v: usize)
    ensures { w.new ≡ put_next i v w.old }
{
    put_block_word(w, Table::Next, i, v);
}

// The previous on its list.
pub fn prev(w: &[usize], i: usize) -> usize
    ensures { result ≡ get_or (view w.now).prev i 0 }
{
    block_word(w, Table::Prev, i)
}

pub fn set_prev(w: &mut [usize], i: usize, v: usize)
    ensures { w.new ≡ put_prev i v w.old }
{
    put_block_word(w, Table::Prev, i, v);
}

// The head of its free chain.
pub fn free(w: &[usize], i: usize) -> usize
    ensures { result ≡ get_or (view w.now).free i 0 }
{
    block_word(w, Table::Free, i)
}

pub fn set_free(w: &mut [usize], i: usize, v: usize)
    ensures { w.new ≡ put_free i v w.old }
{
    put_block_word(w, Table::Free, i, v);
}

// Its cell size.
pub fn size(w: &[usize], i: usize) -> usize
    ensures { result ≡ get_or (view w.now).size i 0 }
{
    block_word(w, Table::Size, i)
}

pub fn set_size(w: &mut [usize], i: usize, v: usize)
    ensures { w.new ≡ put_size i v w.old }
{
    put_block_word(w, Table::Size, i, v);
}

// The word that names its list.
pub fn list(w: &[usize], i: usize) -> usize
    ensures { result ≡ get_or (view w.now).list i 0 }
{
    block_word(w, Table::List, i)
}

pub fn set_list(w: &mut [usize], i: usize, v: usize)
    ensures { w.new ≡ put_list i v w.old }
{
    put_block_word(w, Table::List, i, v);
}

// Its holder.
pub fn tls(w: &[usize], i: usize) -> usize
    ensures { result ≡ get_or (view w.now).tls i 0 }
{
    block_word(w, Table::Tls, i)
}

pub fn set_tls(w: &mut [usize], i: usize, v: usize)
    ensures { w.new ≡ put_tls i v w.old }
{
    put_block_word(w, Table::Tls, i, v);
}

// Its free count.
pub fn cells(w: &[usize], i: usize) -> usize
    ensures { result ≡ get_or (view w.now).cells i 0 }
{
    block_word(w, Table::Cells, i)
}

pub fn set_cells(w: &mut [usize], i: usize, v: usize)
    ensures { w.new ≡ put_cells i v w.old }
{
    put_block_word(w, Table::Cells, i, v);
}
