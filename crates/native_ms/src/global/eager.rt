// The end of a collection with the choice of eager sweeping (02, R-8): the last part sweeps every occupied block, and files anew
// those of abandoned and in-gc that are consumed but have a free cell now. In the Rust `generate_sweep_tasks` and `recycle_blocks` of
// global.rs.
ghost use Rattle.std.specs.Prelude.{◌≡◌, length, get_or};
ghost use Rattle.model.specs.Tables.{view};
ghost use Rattle.model.specs.Global.{freed, sweep_block, sweep_all, recycle_from, recycle_bin, recycle_blocks, eagerly};
ghost use Rattle.native_ms.specs.Eager.{done, swept_in, recycle_block};
ghost use Rattle.native_ms.specs.Places.{Known};

use crate::address::{Bin, Lists, Owner, Part, Space};
use crate::{block, block_list, global};
use model::{ABANDONED, Address, BINS, Block, IN_GC};
use words::{states, tables};

// ---- the sweep of all blocks

// Sweeps the block, if it is in use. The answer is how many were swept: 1 or 0, as in `attempt_release`.
fn sweep_block(
    space: &Space,
    w: &mut [usize],
    st: &[u8],
    m: &[u8],
    heap: &mut [u8],
    b: Block,
) -> usize
    requires { Known space.now.p (length w.old) (length m.now) (length heap.old) }
    ensures { done result (view w.new) heap.new ≡ swept_in space.now.p heap.old (sweep_block space.now.p m.now b.0 (freed (view w.old) st.now)) }
{
    let state = states::state(st, b.0);
    if state == block::UNALLOCATED {
        return 0;
    }
    block::sweep(space, w, m, heap, b);
    1
}

// Sweeps every occupied block, in ascending order.
fn sweep_all(space: &Space, w: &mut [usize], st: &[u8], m: &[u8], heap: &mut [u8]) -> usize
    requires { Known space.now.p (length w.old) (length m.now) (length heap.old) }
    ensures { done result (view w.new) heap.new ≡ swept_in space.now.p heap.old (sweep_all space.now.p m.now (freed (view w.old) st.now)) }
{
    let mut swept: usize = 0;
    for number in 0..space.p.blocks {
        swept += sweep_block(space, w, st, m, heap, Block(number));
    }
    swept
}

// ---- filing anew

// A consumed block that has a free cell becomes available.
fn recycle_block(space: &Space, w: &mut [usize], own: Lists, b: Block)
    ensures { view w.new ≡ recycle_block space.now.p own.available.at own.consumed.at b.0 (view w.old) }
{
    let cell = tables::free(w, b.0);
    if cell == 0 {
        return;
    }
    block_list::remove(space, w, own.consumed, b);
    block_list::push(space, w, own.available, b);
}

// Those of a whole list. The next link is read before its block is removed.
fn recycle_list(space: &Space, w: &mut [usize], own: Lists)
    ensures { view w.new ≡ recycle_from space.now.p.blocks space.now.p own.available.at own.consumed.at (get_or (view w.old).first own.consumed.at 0) (view w.old) }
{
    let mut link = tables::first(w, own.consumed.at);
    for _ in 0..space.p.blocks {
        if link == 0 {
            return;
        }
        let b = space.block_at(Address(link));
        link = tables::next(w, b.0);
        recycle_block(space, w, own, b);
    }
}

fn recycle_bin(space: &Space, w: &mut [usize], owner: Owner, bin: Bin)
    ensures { view w.new ≡ recycle_bin space.now.p owner.set bin.number (view w.old) }
{
    recycle_list(space, w, owner.lists(bin));
}

// Those of an owner: the loop over bins once more (`abandon_blocks` of global.rt says why).
fn recycle_blocks(space: &Space, w: &mut [usize], owner: Owner)
    ensures { view w.new ≡ recycle_blocks space.now.p owner.set (view w.old) }
{
    for bin in 0..BINS {
        recycle_bin(space, w, owner, Bin { number: bin });
    }
}

// After a part's own work: nothing, but for the last part with the choice on. The answer is how many blocks were swept.
pub(crate) fn eagerly(
    space: &Space,
    w: &mut [usize],
    st: &[u8],
    m: &[u8],
    heap: &mut [u8],
    part: Part,
) -> usize
    requires { Known space.now.p (length w.old) (length m.now) (length heap.old) }
    ensures { done result (view w.new) heap.new ≡ swept_in space.now.p heap.old (eagerly space.now.p m.now part.number (freed (view w.old) st.now)) }
{
    if !space.p.eager {
        return 0;
    }
    if !global::is_last(w, part) {
        return 0;
    }
    let swept = sweep_all(space, w, st, m, heap);
    recycle_blocks(space, w, Owner { set: ABANDONED });
    recycle_blocks(space, w, Owner { set: IN_GC });
    swept
}
