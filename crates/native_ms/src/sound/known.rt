// Words and state bytes at places that are known to be there. `words::tables` tests each index; here lengths were tested once for the whole
// call, for speed: a test for each word of each block takes a good part of the time of a call (docs/SPEED.md).
#![tactic(auto, unfolding(model::specs::Tables::view))]

ghost use Rattle.std.specs.Prelude.{◌≡◌, ◌+◌, ◌-◌, ◌*◌, ◌<◌, ◌≤◌, eqb, length, get_or};
ghost use Rattle.model.specs.Base.{all_below};
ghost use Rattle.model.specs.Params.{lists, head_words, block_tables, holders};
ghost use Rattle.model.specs.Tables.{view, blocks_in, block_table};
ghost use Rattle.words.specs.Table.{table_number};
ghost use Rattle.native_ms.specs.SoundLent.{Lengths, zero_at, Firsts};

use crate::address::{ListNumber, Space};
use model::{Address, BINS, Block, HEAD_WORDS, LISTS, PHASE_WORD, SETS};
use words::tables::Table;

// Words and state bytes of the lengths that the parameters give.
#[derive(Clone, Copy)]
pub(crate) struct Lent<'a> {
    pub space: &'a Space,
    pub words: &'a [usize],
    pub states: &'a [u8],
    ghost lengths: { Lengths space.now.p words.now states.now },
}

impl<'a> Lent<'a> {
    pub(crate) fn first(&self, list: ListNumber) -> Address
        ensures { result.0 ≡ get_or (view self.now.words.now).first list.at 0 }
    {
        first(self.words, list.at)
    }

    pub(crate) fn last(&self, list: ListNumber) -> Address
        ensures { result.0 ≡ get_or (view self.now.words.now).last list.at 0 }
    {
        Address(self.words[LISTS + list.at])
    }

    // Of each set, the union of its lists' firsts: 0 if the set is empty.
    pub(crate) fn firsts(&self) -> [usize; SETS]
        ensures { Firsts self.now.words.now result }
    {
        let mut unions = [0usize; SETS];
        for (set, union) in unions.iter_mut().enumerate() {
            *union = union_of(self.words, BINS * set, BINS);
        }
        unions
    }
}

// One of the blocks. A loop over all of them makes it of its number: an iterator would give no more than that line.
#[derive(Clone, Copy)]
pub(crate) struct LentBlock<'a> {
    pub lent: &'a Lent<'a>,
    pub block: Block,
    ghost low: { block.0 < lent.now.space.now.p.blocks },
}

impl<'a> LentBlock<'a> {
    fn word(self, table: Table) -> usize
        ensures { result ≡ get_or (block_table (blocks_in self.entry.lent.now.words.now) (table_number table) self.entry.lent.now.words.now) self.entry.block.0 0 }
    {
        block_word(self.lent.words, self.lent.space.p.blocks, table, self.block)
    }

    // A method for each table, as in `words::tables`.
    pub(crate) fn next(self) -> Address
        ensures { result.0 ≡ get_or (view self.entry.lent.now.words.now).next self.entry.block.0 0 }
    {
        Address(self.word(Table::Next))
    }

    pub(crate) fn prev(self) -> Address
        ensures { result.0 ≡ get_or (view self.entry.lent.now.words.now).prev self.entry.block.0 0 }
    {
        Address(self.word(Table::Prev))
    }

    pub(crate) fn free(self) -> Address
        ensures { result.0 ≡ get_or (view self.entry.lent.now.words.now).free self.entry.block.0 0 }
    {
        Address(self.word(Table::Free))
    }

    pub(crate) fn size(self) -> usize
        ensures { result ≡ get_or (view self.entry.lent.now.words.now).size self.entry.block.0 0 }
    {
        self.word(Table::Size)
    }

    pub(crate) fn list(self) -> usize
        ensures { result ≡ get_or (view self.entry.lent.now.words.now).list self.entry.block.0 0 }
    {
        self.word(Table::List)
    }

    pub(crate) fn tls(self) -> usize
        ensures { result ≡ get_or (view self.entry.lent.now.words.now).tls self.entry.block.0 0 }
    {
        self.word(Table::Tls)
    }

    pub(crate) fn cells(self) -> usize
        ensures { result ≡ get_or (view self.entry.lent.now.words.now).cells self.entry.block.0 0 }
    {
        self.word(Table::Cells)
    }

    pub(crate) fn state(self) -> u8
        ensures { result ≡ get_or self.entry.lent.now.states.now self.entry.block.0 0 }
    {
        state(self.lent.states, self.block)
    }
}

// A block's word in one of the seven block tables.
pub(crate) fn block_word(words: &[usize], blocks: usize, table: Table, b: Block) -> usize
    requires { (length words.now ≡ head_words + block_tables * blocks) × (b.0 < blocks) }
    ensures { result ≡ get_or (block_table (blocks_in words.now) (table_number table) words.now) b.0 0 }
{
    words[HEAD_WORDS + table.number() * blocks + b.0]
}

// ---- by themselves, for calls that are lent no state bytes or go to one place: they go on to write these words, so that what is known of the
// words' length is asked for (lib.rt)
pub(crate) fn free(words: &[usize], blocks: usize, b: Block) -> Address
    requires { (length words.now ≡ head_words + block_tables * blocks) × (b.0 < blocks) }
    ensures { result.0 ≡ get_or (view words.now).free b.0 0 }
{
    Address(block_word(words, blocks, Table::Free, b))
}

pub(crate) fn first(words: &[usize], list: usize) -> Address
    requires { (head_words ≤ length words.now) × (list < lists) }
    ensures { result.0 ≡ get_or (view words.now).first list 0 }
{
    Address(words[list])
}

pub(crate) fn phase(words: &[usize]) -> usize
    requires { head_words ≤ length words.now }
    ensures { result ≡ (view words.now).phase }
{
    words[PHASE_WORD]
}

// Of a holder, 1 to 8: the word behind the phase's for the first one.
pub(crate) fn bound(words: &[usize], holder: usize) -> usize
    requires { (head_words ≤ length words.now) × (1 ≤ holder) × (holder ≤ holders) }
    ensures { result ≡ get_or (view words.now).bound (holder - 1) 0 }
{
    words[PHASE_WORD + holder]
}

pub(crate) fn state(states: &[u8], b: Block) -> u8
    requires { b.0 < length states.now }
    ensures { result ≡ get_or states.now b.0 0 }
{
    states[b.0]
}

// The union of the `count` words from `from` on, which is 0 if each is: no early exit, so that it is done several words at a time (speed). A
// stretch and not a slice, since what it promises speaks of places in all the words.
pub(crate) fn union_of(words: &[usize], from: usize, count: usize) -> usize
    requires { from + count ≤ length words.now }
    ensures { eqb result 0 ≡ all_below count (zero_at words.now from) }
{
    let mut union: usize = 0;
    for word in &words[from..from + count] {
        union |= *word;
    }
    union
}
