// The space: set-up, holders, marking and the releases of a collection. Named after the Rust's global.rs, with
// `abandon_blocks` and `release` of free_list_allocator.rs; `eager` has what the last release does with the choice of eager sweeping.
//
// | call                    | phase              | after                        |
// |-------------------------|--------------------|------------------------------|
// | bind                    | Running            | Running                      |
// | destroy                 | Running, Marking   | the same                     |
// | prepare                 | Running            | Marking                      |
// | mark                    | Marking            | Marking                      |
// | release, shared release | Marking, Releasing | Releasing; the last: Running |
mod eager;

ghost use Rattle.std.specs.Prelude.{◌≡◌, List, map, ℕ, ◌<◌, ◌≤◌, length, get_or, replicate};
ghost use Rattle.model.specs.declared.Params.{Params};
ghost use Rattle.model.specs.Params.{bins, parts, head_words, abandoned, in_gc};
ghost use Rattle.model.specs.Tables.{Words, view, tables_of, with_released};
ghost use Rattle.model.specs.Global.{freed, unmarked_state, release_from, release_bin, release_holder, sweep_later_bin, sweep_later, is_holder, is_bound, has_released, all_released, is_last};
ghost use Rattle.model.specs.Calls.{bind, destroy, prepare, mark, release, shared_release};
ghost use Rattle.model.specs.Answers.{reply_of, count_reply, mark_reply, release_reply};
ghost use Rattle.model.specs.Promise.{lend, Promised, SetUpPromised};
ghost use Rattle.native_ms.specs.Moved.{moved, bin_moves, bins_move, end_moves, part_moves};
ghost use Rattle.native_ms.specs.Ending.{Does};
ghost use Rattle.native_ms.specs.Released.{out, total, attempt_release, released_bins, TellsReleased};
ghost use Rattle.native_ms.specs.Eager.{waits, after_part};
ghost use Rattle.native_ms.specs.Places.{Known};

use crate::address::{Bin, Holder, ListNumber, Owner, Part, Space};
use crate::{block, block_list, checks, classes, memory};
use model::{ABANDONED, Address, BINS, Block, HOLDERS, IN_GC, PARTS, Params, Refusal, Released};
pub(crate) use words::tables::{MARKING, RELEASING, RUNNING};
use words::{marks, states, tables};

// ---- holders, and what has released

pub(crate) fn is_holder(holder: usize) -> bool
    ensures { result ≡ is_holder holder }
{
    1 <= holder && holder <= HOLDERS
}

pub(crate) fn is_bound(w: &[usize], holder: usize) -> bool
    ensures { result ≡ is_bound (view w.now) holder }
{
    is_holder(holder) && tables::bound(w, holder - 1) == 1
}

pub(crate) fn has_released(w: &[usize], part: usize) -> bool
    ensures { result ≡ has_released (view w.now) part }
{
    tables::released(w, part) == 1
}

// Nothing is due any more, where `released` says which parts have released: each holder that is bound has, and the shared part.
fn none_due<F: Fn(usize) -> bool>(w: &[usize], released: F) -> bool
    requires { F.IsAlwaysCallable released }
    ensures { (then : Words) → then.bound ≡ (view w.now).bound → TellsReleased (F.post released) then → result ≡ all_released then }
{
    for holder in 1..=HOLDERS {
        if is_bound(w, holder) && !released(holder) {
            return false;
        }
    }
    released(0)
}

pub(crate) fn all_released(w: &[usize]) -> bool
    ensures { result ≡ all_released (view w.now) }
{
    none_due(w, |part| has_released(w, part))
}

// With this part nothing is due any more.
fn is_last(w: &[usize], part: Part) -> bool
    requires { head_words ≤ length w.now }
    ensures { result ≡ is_last part.number (view w.now) }
{
    none_due(
        w,
        |other|
            requires { (head_words ≤ length w.now) × (part.number < parts) }
            ensures { result ≡ has_released (after_part part.number (view w.entry.now)) other }
        { other == part.number || has_released(w, other) },
    )
}

// ---- set-up

// Beside `clear_all` of the bytes: a line each, which one function of either would not make plainer.
fn clear_words(w: &mut [usize])
    ensures { w.new ≡ replicate (length w.old) 0 }
{
    w.fill(0);
}

// Zeroes tables and marks, and leaves the heap.
pub fn set_up(
    p: Params,
    words: &mut [usize],
    states: &mut [u8],
    marks: &mut [u8],
    heap: &[u8],
) -> Result<(), Refusal>
    ensures { SetUpPromised p (lend words.old states.old marks.old heap.now) (reply_of result) (lend words.new states.new marks.new heap.now) }
{
    if !checks::lent_fits(p, words, states, marks, heap) {
        return Err(Refusal::BadSetup);
    }
    if !classes::classes_fit(&Space { p }) {
        return Err(Refusal::BadClasses);
    }
    clear_words(words);
    marks::clear_all(states);
    marks::clear_all(marks);
    Ok(())
}

// ---- holders

// Gives a holder its lists, which are empty.
pub(crate) fn do_bind(w: &mut [usize], holder: usize) -> Result<(), Refusal>
    ensures { (p : Params) (s m h : List ℕ) → Does p (tables_of (view w.old) s m) h (bind holder) (reply_of result) (tables_of (view w.new) s m) h }
{
    checks::check_bind(w, holder)?;
    tables::set_bound(w, holder - 1, 1);
    Ok(())
}

pub fn bind(
    p: Params,
    words: &mut [usize],
    states: &[u8],
    marks: &[u8],
    heap: &[u8],
    holder: usize,
) -> Result<(), Refusal>
    ensures { Promised p (lend words.old states.now marks.now heap.now) (bind holder) (reply_of result) (lend words.new states.now marks.now heap.now) }
{
    checks::check_lent(p, words, states, marks, heap)?;
    do_bind(words, holder)
}

// One bin of three lists goes behind another owner's. The answer is how many blocks went over.
fn abandon_bin(space: &Space, w: &mut [usize], to: Owner, from: Owner, bin: Bin) -> usize
    ensures { moved result (view w.new) ≡ bin_moves space.now.p to.set from.set bin.number (view w.old) }
{
    let own = to.lists(bin);
    let other = from.lists(bin);
    let free = block_list::append(space, w, own.available, other.available);
    let full = block_list::append(space, w, own.consumed, other.consumed);
    let kept = block_list::append(space, w, own.unswept, other.unswept);
    free + full + kept
}

// All lists of one owner go behind another's. The answer is how many blocks went over.
// A loop over the bins for each step, here and below: one that is given its step would promise a relation over all turns, no plainer
// than the equation that each of these promises.
fn abandon_blocks(space: &Space, w: &mut [usize], to: Owner, from: Owner) -> usize
    ensures { moved result (view w.new) ≡ bins_move bins space.now.p to.set from.set (view w.old) }
{
    let mut count: usize = 0;
    for bin in 0..BINS {
        count += abandon_bin(space, w, to, from, Bin { number: bin });
    }
    count
}

// Hands a holder's lists to abandoned, where the shared release treats them; the holder is bound no more. The answer is how many
// blocks it left behind.
pub(crate) fn do_destroy(space: &Space, w: &mut [usize], holder: usize) -> Result<usize, Refusal>
    ensures { (s m h : List ℕ) → Does space.now.p (tables_of (view w.old) s m) h (destroy holder) (count_reply result) (tables_of (view w.new) s m) h }
{
    checks::check_leave(w, holder)?;
    let from = Holder { number: holder }.owner();
    let count = abandon_blocks(space, w, Owner { set: ABANDONED }, from);
    tables::set_bound(w, holder - 1, 0);
    Ok(count)
}

pub fn destroy(
    p: Params,
    words: &mut [usize],
    states: &[u8],
    marks: &[u8],
    heap: &[u8],
    holder: usize,
) -> Result<usize, Refusal>
    ensures { Promised p (lend words.old states.now marks.now heap.now) (destroy holder) (count_reply result) (lend words.new states.now marks.now heap.now) }
{
    checks::check_lent(p, words, states, marks, heap)?;
    do_destroy(&Space { p }, words, holder)
}

// ---- marking

fn unmarked_state(state: u8) -> u8
    ensures { result ≡ unmarked_state state }
{
    if state == block::UNALLOCATED {
        return block::UNALLOCATED;
    }
    block::UNMARKED
}

// Occupied blocks become Unmarked.
fn unmark_blocks(st: &mut [u8])
    ensures { st.new ≡ map unmarked_state st.old }
{
    for state in st.iter_mut() {
        *state = unmarked_state(*state);
    }
}

// Starts a collection.
pub(crate) fn do_prepare(w: &mut [usize], st: &mut [u8], m: &mut [u8]) -> Result<(), Refusal>
    requires { head_words ≤ length w.old }
    ensures { (p : Params) (h : List ℕ) → Does p (tables_of (view w.old) st.old m.old) h prepare (reply_of result) (tables_of (view w.new) st.new m.new) h }
{
    checks::check_phase(w, RUNNING)?;
    tables::set_phase(w, MARKING);
    unmark_blocks(st);
    marks::clear_all(m);
    Ok(())
}

pub fn prepare(
    p: Params,
    words: &mut [usize],
    states: &mut [u8],
    marks: &mut [u8],
    heap: &[u8],
) -> Result<(), Refusal>
    ensures { Promised p (lend words.old states.old marks.old heap.now) prepare (reply_of result) (lend words.new states.new marks.new heap.now) }
{
    checks::check_lent(p, words, states, marks, heap)?;
    do_prepare(words, states, marks)
}

// Marks a place of a block, and says whether the mark is new. A repeated mark changes nothing.
pub(crate) fn do_mark(
    space: &Space,
    w: &[usize],
    st: &mut [u8],
    m: &mut [u8],
    place: Address,
    b: Block,
) -> Result<bool, Refusal>
    ensures { (h : List ℕ) → Does space.now.p (tables_of (view w.now) st.old m.old) h (mark place.0 b.0) (mark_reply result) (tables_of (view w.now) st.new m.new) h }
{
    checks::check_mark(space, w, st, place, b)?;
    if memory::is_marked(space, m, place) {
        return Ok(false);
    }
    states::set_state(st, b.0, block::MARKED);
    memory::set_mark(space.p, m, place);
    Ok(true)
}

pub fn mark(
    p: Params,
    words: &[usize],
    states: &mut [u8],
    marks: &mut [u8],
    heap: &[u8],
    place: Address,
    block: Block,
) -> Result<bool, Refusal>
    ensures { Promised p (lend words.now states.old marks.old heap.now) (mark place.0 block.0) (mark_reply result) (lend words.now states.new marks.new heap.now) }
{
    checks::check_lent(p, words, states, marks, heap)?;
    do_mark(&Space { p }, words, states, marks, place, block)
}

// ---- releasing

// Takes the block out of the list and releases it, if it is Unmarked. The answer is how many were released: 1 or 0.
// No bool: the contract counts, and so does the caller.
fn attempt_release(
    space: &Space,
    w: &mut [usize],
    st: &mut [u8],
    list: ListNumber,
    b: Block,
) -> usize
    ensures { out result (view w.new) st.new ≡ attempt_release space.now.p list.at b.0 (view w.old) st.old }
{
    let state = states::state(st, b.0);
    if state != block::UNMARKED {
        return 0;
    }
    block_list::remove(space, w, list, b);
    block::clear_block(w, st, b);
    1
}

// Releases the Unmarked blocks of the list. The next link is read before its block is removed.
fn release_blocks(space: &Space, w: &mut [usize], st: &mut [u8], list: ListNumber) -> usize
    ensures { out result (view w.new) st.new ≡ total (release_from space.now.p.blocks space.now.p list.at (get_or (view w.old).first list.at 0) (view w.old) st.old) }
{
    let mut link = tables::first(w, list.at);
    let mut released: usize = 0;
    for _ in 0..space.p.blocks {
        if link == 0 {
            return released;
        }
        let b = space.block_at(Address(link));
        link = tables::next(w, b.0);
        released += attempt_release(space, w, st, list, b);
    }
    released
}

// What stays of the other list is swept later; with the choice of eager sweeping it stays where it is.
fn left_unswept(space: &Space, w: &mut [usize], list: ListNumber, other: ListNumber)
    ensures { view w.new ≡ waits space.now.p list.at other.at (view w.old) }
{
    if space.p.eager {
        return;
    }
    block_list::append(space, w, list, other);
}

// One bin of a holder's release: what stays of available and consumed blocks becomes unswept.
fn release_bin(space: &Space, w: &mut [usize], st: &mut [u8], owner: Owner, bin: Bin) -> usize
    ensures { out result (view w.new) st.new ≡ total (release_bin space.now.p owner.set bin.number (freed (view w.old) st.old)) }
{
    let own = owner.lists(bin);
    let free = release_blocks(space, w, st, own.available);
    left_unswept(space, w, own.unswept, own.available);
    let full = release_blocks(space, w, st, own.consumed);
    left_unswept(space, w, own.unswept, own.consumed);
    free + full
}

fn release_bins(space: &Space, w: &mut [usize], st: &mut [u8], owner: Owner) -> usize
    ensures { out result (view w.new) st.new ≡ total (released_bins space.now.p owner.set bins (view w.old) st.old) }
{
    let mut released: usize = 0;
    for bin in 0..BINS {
        released += release_bin(space, w, st, owner, Bin { number: bin });
    }
    released
}

// A holder's part: its lists end up in-gc.
fn release_holder(space: &Space, w: &mut [usize], st: &mut [u8], holder: Holder) -> usize
    ensures { out result (view w.new) st.new ≡ total (release_holder space.now.p holder.number (view w.old) st.old) }
{
    let owner = holder.owner();
    let released = release_bins(space, w, st, owner);
    abandon_blocks(space, w, Owner { set: IN_GC }, owner);
    released
}

// One bin of the shared part.
fn sweep_later_bin(space: &Space, w: &mut [usize], st: &mut [u8], bin: Bin) -> usize
    ensures { out result (view w.new) st.new ≡ total (sweep_later_bin space.now.p bin.number (freed (view w.old) st.old)) }
{
    let shared = Owner { set: ABANDONED }.lists(bin);
    let free = release_blocks(space, w, st, shared.available);
    let full = release_blocks(space, w, st, shared.consumed);
    let waiting = release_blocks(space, w, st, shared.unswept);
    left_unswept(space, w, shared.unswept, shared.available);
    left_unswept(space, w, shared.unswept, shared.consumed);
    free + full + waiting
}

// The shared part: abandoned blocks are released, or become unswept.
fn sweep_later(space: &Space, w: &mut [usize], st: &mut [u8]) -> usize
    ensures { out result (view w.new) st.new ≡ total (sweep_later space.now.p (view w.old) st.old) }
{
    let mut released: usize = 0;
    for bin in 0..BINS {
        released += sweep_later_bin(space, w, st, Bin { number: bin });
    }
    released
}

// The in-gc lists go behind the abandoned ones.
fn merge(space: &Space, w: &mut [usize]) -> usize
    ensures { moved result (view w.new) ≡ bins_move bins space.now.p abandoned in_gc (view w.old) }
{
    abandon_blocks(space, w, Owner { set: ABANDONED }, Owner { set: IN_GC })
}

// That the head words are there is asked of the words here and below: a struct that holds it would be one of `&mut` (lib.rt says what was
// tried), and the readers that ask it too are lent the same words.
fn clear_released(w: &mut [usize])
    requires { head_words ≤ length w.old }
    ensures { view w.new ≡ with_released (replicate parts 0) (view w.old) }
{
    for part in 0..PARTS {
        tables::set_released(w, part, 0);
    }
}

// Nothing is due any more: back to Running. The answer is how many blocks were merged.
fn end_of_gc(space: &Space, w: &mut [usize]) -> usize
    requires { head_words ≤ length w.old }
    ensures { moved result (view w.new) ≡ end_moves space.now.p (view w.old) }
{
    let merged = merge(space, w);
    clear_released(w);
    tables::set_phase(w, RUNNING);
    merged
}

// A part has released; the last one ends the collection. The answer is how many blocks were merged, 0 if parts are due.
fn part_released(space: &Space, w: &mut [usize], part: Part) -> usize
    requires { head_words ≤ length w.old }
    ensures { moved result (view w.new) ≡ part_moves space.now.p part.number (view w.old) }
{
    tables::set_phase(w, RELEASING);
    tables::set_released(w, part.number, 1);
    let done = all_released(w);
    if done {
        return end_of_gc(space, w);
    }
    0 // the others are due
}

// A holder's release.
pub(crate) fn do_release(
    space: &Space,
    w: &mut [usize],
    st: &mut [u8],
    m: &[u8],
    heap: &mut [u8],
    holder: usize,
) -> Result<Released, Refusal>
    requires { Known space.now.p (length w.old) (length m.now) (length heap.old) }
    ensures { Does space.now.p (tables_of (view w.old) st.old m.now) heap.old (release holder) (release_reply result) (tables_of (view w.new) st.new m.now) heap.new }
{
    checks::check_release(w, holder)?;
    let holder = Holder { number: holder };
    let count = release_holder(space, w, st, holder);
    let part = holder.part();
    let swept = eager::eagerly(space, w, st, m, heap, part);
    let merged = part_released(space, w, part);
    Ok(Released {
        blocks: count,
        merged,
        swept,
    })
}

pub fn release(
    p: Params,
    words: &mut [usize],
    states: &mut [u8],
    marks: &[u8],
    heap: &mut [u8],
    holder: usize,
) -> Result<Released, Refusal>
    ensures { Promised p (lend words.old states.old marks.now heap.old) (release holder) (release_reply result) (lend words.new states.new marks.now heap.new) }
{
    checks::check_lent(p, words, states, marks, heap)?;
    do_release(&Space { p }, words, states, marks, heap, holder)
}

// The shared part's release.
pub(crate) fn do_shared_release(
    space: &Space,
    w: &mut [usize],
    st: &mut [u8],
    m: &[u8],
    heap: &mut [u8],
) -> Result<Released, Refusal>
    requires { Known space.now.p (length w.old) (length m.now) (length heap.old) }
    ensures { Does space.now.p (tables_of (view w.old) st.old m.now) heap.old shared_release (release_reply result) (tables_of (view w.new) st.new m.now) heap.new }
{
    checks::check_shared_release(w)?;
    let released = sweep_later(space, w, st);
    let part = Part { number: 0 };
    let swept = eager::eagerly(space, w, st, m, heap, part);
    let merged = part_released(space, w, part);
    Ok(Released {
        blocks: released,
        merged,
        swept,
    })
}

pub fn shared_release(
    p: Params,
    words: &mut [usize],
    states: &mut [u8],
    marks: &[u8],
    heap: &mut [u8],
) -> Result<Released, Refusal>
    ensures { Promised p (lend words.old states.old marks.now heap.old) shared_release (release_reply result) (lend words.new states.new marks.now heap.new) }
{
    checks::check_lent(p, words, states, marks, heap)?;
    do_shared_release(&Space { p }, words, states, marks, heap)
}
