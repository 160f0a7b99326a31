// The four list operations, on table words: a list is one of the 1,470, a link is an address, 0 for none.
// They are right on any words; that lists are sound is nothing they need.
ghost use Rattle.std.specs.Prelude.{◌≡◌, ℕ, length, map};
ghost use Rattle.model.specs.Params.{bins, last_bin};
ghost use Rattle.model.specs.Tables.{view};
ghost use Rattle.model.specs.BlockList.{popped, push, pop, remove, relabel, link, walk};
ghost use Rattle.model.specs.Calls.{pages};
ghost use Rattle.model.specs.Answers.{count_reply};
ghost use Rattle.native_ms.specs.Counted.{counted_from, counted_bins, set_fits};
ghost use Rattle.native_ms.specs.Links.{word_of};
ghost use Rattle.native_ms.specs.Moved.{moved, append_moves};
ghost use Rattle.native_ms.specs.Records.{with_record, record_at, beside, on_record, beside_popped, pop_on, beside_both, append_on, firsts};

use crate::address::{BlockStart, ListNumber, Space};
use crate::params;
use model::{Address, BINS, BLOCK_TABLES, Block, HEAD_WORDS, Params, Refusal};
use words::tables;

// Adds the block at the head of the list.
pub(crate) fn push(space: &Space, w: &mut [usize], list: ListNumber, b: Block)
    ensures { view w.new ≡ push space.now.p list.at b.0 (view w.old) }
{
    let start = space.start(b);
    let own = start.0;
    let word = list.word();
    let head = tables::first(w, list.at);
    if head == 0 {
        tables::set_next(w, b.0, 0);
        tables::set_prev(w, b.0, 0);
        tables::set_first(w, list.at, own);
        tables::set_last(w, list.at, own);
        tables::set_list(w, b.0, word);
    } else {
        let old = space.block_at(Address(head));
        tables::set_next(w, b.0, head);
        tables::set_prev(w, old.0, own);
        tables::set_prev(w, b.0, 0);
        tables::set_first(w, list.at, own);
        tables::set_list(w, b.0, word);
    }
}

// Takes the head of the list off, and says where it starts: None for an empty list.
pub(crate) fn pop(space: &Space, w: &mut [usize], list: ListNumber) -> Option<BlockStart>
    ensures { popped (word_of result) (view w.new) ≡ pop space.now.p list.at (view w.old) }
{
    let head = tables::first(w, list.at);
    if head == 0 {
        return None;
    }
    let at = Address(head);
    let top = space.block_at(at);
    let next = tables::next(w, top.0);
    if next == 0 {
        tables::set_first(w, list.at, 0);
        tables::set_last(w, list.at, 0); // the head was the last too
        tables::set_next(w, top.0, 0);
        tables::set_prev(w, top.0, 0);
        Some(BlockStart { at })
    } else {
        let follower = space.block_at(Address(next));
        let word = list.word();
        tables::set_first(w, list.at, next);
        tables::set_prev(w, follower.0, 0);
        tables::set_list(w, follower.0, word);
        tables::set_next(w, top.0, 0);
        tables::set_prev(w, top.0, 0);
        Some(BlockStart { at })
    }
}

// Takes the block out of the list. Its own words stay.
pub(crate) fn remove(space: &Space, w: &mut [usize], list: ListNumber, b: Block)
    ensures { view w.new ≡ remove space.now.p list.at b.0 (view w.old) }
{
    let prev = tables::prev(w, b.0);
    let next = tables::next(w, b.0);
    let word = list.word();
    let before = space.block_at(Address(prev));
    let behind = space.block_at(Address(next));
    if prev == 0 {
        if next == 0 {
            tables::set_first(w, list.at, 0);
            tables::set_last(w, list.at, 0);
        } else {
            tables::set_prev(w, behind.0, 0);
            tables::set_first(w, list.at, next);
            tables::set_list(w, behind.0, word);
        }
    } else if next == 0 {
        tables::set_next(w, before.0, 0);
        tables::set_last(w, list.at, prev);
        tables::set_list(w, before.0, word);
    } else {
        tables::set_next(w, before.0, next);
        tables::set_prev(w, behind.0, prev);
    }
}

// Each block from the one at `at` on gets the list's word. Like `count_from`, `count_blocks`, `release_blocks` (global.rt) and `recycle_list`
// (global/eager.rt) a walk with its own loop: one that is given its step would promise a relation over all turns, no plainer than the
// equation that each of these promises. Those that only count have another end and another test each, so that an iterator would serve one.
fn relabel(space: &Space, w: &mut [usize], list: ListNumber, at: Address)
    ensures { view w.new ≡ relabel space.now.p.blocks space.now.p list.at at.0 (view w.old) }
{
    let word = list.word();
    let mut link = at.0;
    for _ in 0..space.p.blocks {
        if link == 0 {
            return;
        }
        let b = space.block_at(Address(link));
        link = tables::next(w, b.0);
        tables::set_list(w, b.0, word);
    }
}

// The list `other`, which is not empty, is put behind the list.
fn link(space: &Space, w: &mut [usize], list: ListNumber, other: ListNumber)
    ensures { view w.new ≡ link space.now.p list.at other.at (view w.old) }
{
    let first = tables::first(w, other.at);
    let last = tables::last(w, other.at);
    let own_last = tables::last(w, list.at);
    let own_first = tables::first(w, list.at);
    if own_first == 0 {
        tables::set_first(w, list.at, first);
        tables::set_last(w, list.at, last);
    } else {
        let before = space.block_at(Address(own_last));
        let behind = space.block_at(Address(first));
        tables::set_next(w, before.0, first);
        tables::set_prev(w, behind.0, own_last);
        tables::set_last(w, list.at, last);
    }
}

// How many blocks stand from the one at `at` on.
fn count_from(space: &Space, w: &[usize], at: Address) -> usize
    ensures { result ≡ length (walk space.now.p.blocks space.now.p (view w.now).next at.0) }
{
    let mut link = at.0;
    for met in 0..space.p.blocks {
        if link == 0 {
            return met;
        }
        let b = space.block_at(Address(link));
        link = tables::next(w, b.0);
    }
    space.p.blocks
}

// Moves the blocks of the list `other` behind those of the list, and says how many they are.
pub(crate) fn append(space: &Space, w: &mut [usize], list: ListNumber, other: ListNumber) -> usize
    ensures { moved result (view w.new) ≡ append_moves space.now.p list.at other.at (view w.old) }
{
    let first = tables::first(w, other.at);
    if first == 0 {
        return 0;
    }
    let count = count_from(space, w, Address(first)); // before link, which leads the last block on
    link(space, w, list, other);
    relabel(space, w, list, Address(first));
    tables::set_first(w, other.at, 0);
    tables::set_last(w, other.at, 0);
    count
}

// A list as a caller lends it: its first and last block by address, 0 for none as in the
// table words, and its cell size.
#[derive(Clone, Copy)]
pub struct BlockList {
    pub first: Address,
    pub last: Address,
    pub size: usize,
}

// The record's ends stand at the list's number in the words, so that the operations on numbers work on them.
fn put_record(w: &mut [usize], list: ListNumber, given: BlockList)
    ensures { view w.new ≡ with_record list.at given (view w.old) }
{
    let first = given.first;
    let last = given.last;
    tables::set_first(w, list.at, first.0);
    tables::set_last(w, list.at, last.0);
}

// The record with the ends that stand at the list's number.
fn record_at(w: &[usize], list: ListNumber, given: BlockList) -> BlockList
    ensures { result ≡ record_at list.at given.size (view w.now) }
{
    let first = Address(tables::first(w, list.at));
    let last = Address(tables::last(w, list.at));
    let mut here = given;
    here.first = first;
    here.last = last;
    here
}

// The four operations on the records that the caller lends. The words keep their ends too, at the lists' numbers. Each is its three
// steps: a function that is given the step in the middle would promise a record of four parts, no plainer.
impl BlockList {
    pub(crate) fn push(&mut self, space: &Space, w: &mut [usize], list: ListNumber, b: Block)
        ensures { beside self.new (view w.new) ≡ on_record list.at (push space.now.p list.at b.0) self.old (view w.old) }
    {
        put_record(w, list, *self);
        push(space, w, list, b);
        *self = record_at(w, list, *self);
    }

    pub(crate) fn pop(
        &mut self,
        space: &Space,
        w: &mut [usize],
        list: ListNumber,
    ) -> Option<BlockStart>
        ensures { beside_popped self.new (popped (word_of result) (view w.new)) ≡ pop_on space.now.p list.at self.old (view w.old) }
    {
        put_record(w, list, *self);
        let at = pop(space, w, list);
        *self = record_at(w, list, *self);
        at
    }

    pub(crate) fn remove(&mut self, space: &Space, w: &mut [usize], list: ListNumber, b: Block)
        ensures { beside self.new (view w.new) ≡ on_record list.at (remove space.now.p list.at b.0) self.old (view w.old) }
    {
        put_record(w, list, *self);
        remove(space, w, list, b);
        *self = record_at(w, list, *self);
    }

    pub(crate) fn append(
        &mut self,
        other: &mut BlockList,
        space: &Space,
        w: &mut [usize],
        list: ListNumber,
        theirs: ListNumber,
    ) -> usize
        ensures { beside_both self.new other.new (moved result (view w.new))
            ≡ append_on space.now.p list.at theirs.at self.old other.old (view w.old) }
    {
        put_record(w, list, *self);
        put_record(w, theirs, *other);
        let blocks = append(space, w, list, theirs);
        *self = record_at(w, list, *self);
        *other = record_at(w, theirs, *other);
        blocks
    }
}

// A set of lists as it is lent: by records, or by their first blocks alone.
pub(crate) trait Starts {
    ghost first_of: { Self → ℕ };

    fn first(&self) -> Address
        ensures { result.0 ≡ first_of self.now };
}

impl Starts for BlockList {
    ghost first_of = { λ given. given.first.0 };

    fn first(&self) -> Address {
        self.first
    }
}

impl Starts for usize {
    ghost first_of = { λ first. first };

    fn first(&self) -> Address {
        Address(*self)
    }
}

// The walk from the block at `first` on: how many blocks it passes, or None where it meets a link that is no block start or does
// not end.
fn count_blocks(space: &Space, w: &[usize], first: Address) -> Option<usize>
    ensures { result ≡ counted_from space.now.p.blocks space.now.p (view w.now).next 0 first.0 }
{
    let mut link = first.0;
    for passed in 0..space.p.blocks {
        if link == 0 {
            return Some(passed);
        }
        if !space.is_start(Address(link)) {
            return None;
        }
        let b = space.block_at(Address(link));
        link = tables::next(w, b.0);
    }
    if link == 0 {
        return Some(space.p.blocks);
    }
    None
}

// The walks of the bins 48 to 1 of a set.
fn count_bins<L: Starts>(space: &Space, w: &[usize], lists: &[L]) -> Option<usize>
    requires { length lists.now ≡ bins }
    ensures { result ≡ counted_bins last_bin space.now.p (view w.now).next (map L.first_of lists.now) 0 }
{
    let mut met: usize = 0;
    for bin in (1..BINS).rev() {
        let first = lists[bin].first();
        met += count_blocks(space, w, first)?;
    }
    Some(met)
}

// Whether the parameters, the words and a set of so many lists are of the right size.
fn set_fits(p: Params, words: &[usize], lists: usize) -> bool
    ensures { result ≡ set_fits p words.now lists }
{
    if !params::good_params(p) {
        return false;
    }
    words.len() == HEAD_WORDS + BLOCK_TABLES * p.blocks && lists == BINS
}

// The pages of the blocks on the 49 lists of one set. Bin 0 is not counted.
fn pages_of<L: Starts>(p: Params, words: &[usize], lists: &[L]) -> Result<usize, Refusal>
    ensures { count_reply result ≡ pages p words.now (map L.first_of lists.now) }
{
    if !set_fits(p, words, lists.len()) {
        return Err(Refusal::BadSetup);
    }
    match count_bins(&Space { p }, words, lists) {
        None => Err(Refusal::BadTables),
        Some(blocks) => Ok(p.bytes / 4096 * blocks),
    }
}

// The pages of a set, by the records the caller lends.
pub fn pages_used(p: Params, words: &[usize], records: &[BlockList]) -> Result<usize, Refusal>
    ensures { count_reply result ≡ pages p words.now (firsts records.now) }
{
    pages_of(p, words, records)
}

// The same for a caller that holds the first blocks and no records.
pub fn pages_of_firsts(p: Params, words: &[usize], firsts: &[usize]) -> Result<usize, Refusal>
    ensures { count_reply result ≡ pages p words.now firsts.now }
{
    pages_of(p, words, firsts)
}
