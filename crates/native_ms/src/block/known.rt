// A block's words, where the count of all words is known: it was tested once for the whole call, and is asked for since the words are lent for
// writing (lib.rt). A block that isn't there has 0, as in the definitions.
ghost use Rattle.std.specs.Prelude.{◌≡◌, ◌+◌, ◌*◌, ◌<◌, length, get_or};
ghost use Rattle.model.specs.Params.{head_words, block_tables};
ghost use Rattle.model.specs.Tables.{view, put_block_word, set_free, set_cells};
ghost use Rattle.words.specs.Table.{table_number};

use crate::block::chain::Chain;
use crate::sound::known;
use model::{Block, HEAD_WORDS};
use words::tables::Table;

// What the tables hold of a block's cells: their size, and the chain of the free ones.
#[derive(Clone, Copy)]
pub(crate) struct Cells {
    pub size: usize,
    pub free: Chain,
}

#[tactic(auto, using(crate::proofs::SoundLent::table_none), unfolding(model::specs::Tables::view))]
pub(crate) fn cells_of(words: &[usize], blocks: usize, b: Block) -> Cells
    requires { length words.now ≡ head_words + block_tables * blocks }
    ensures size { result.size ≡ get_or (view words.now).size b.0 0 }
    ensures head { result.free.head ≡ get_or (view words.now).free b.0 0 }
    ensures count { result.free.count ≡ get_or (view words.now).cells b.0 0 }
{
    if b.0 < blocks {
        return Cells {
            size: known::block_word(words, blocks, Table::Size, b),
            free: Chain {
                head: known::block_word(words, blocks, Table::Free, b),
                count: known::block_word(words, blocks, Table::Cells, b),
            },
        };
    }
    let free = Chain { head: 0, count: 0 };
    Cells { size: 0, free }
}

pub(crate) fn set_word(words: &mut [usize], blocks: usize, table: Table, b: Block, v: usize)
    requires { length words.old ≡ head_words + block_tables * blocks }
    ensures { words.new ≡ put_block_word (table_number table) b.0 v words.old }
{
    if b.0 < blocks {
        words[HEAD_WORDS + table.number() * blocks + b.0] = v;
    }
}

// The block's free head, and how many cells are free.
pub(crate) fn set_chain(words: &mut [usize], blocks: usize, b: Block, chain: Chain)
    requires { length words.old ≡ head_words + block_tables * blocks }
    ensures { view words.new ≡ set_cells b.0 chain.count (set_free b.0 chain.head (view words.old)) }
{
    set_word(words, blocks, Table::Free, b, chain.head);
    set_word(words, blocks, Table::Cells, b, chain.count);
}
