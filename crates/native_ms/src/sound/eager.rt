// What the choice of eager sweeping asks of tables (02, R-8): no block awaits a sweep, and no Unmarked block stands where the blocks
// were released before.
ghost use Rattle.std.specs.Prelude.{◌≡◌, ◌<◌, List, [], ℕ};
ghost use Rattle.model.specs.Tables.{view, tables_of};
ghost use Rattle.model.specs.Sound.{eager_block, eager_ok};
ghost use Rattle.native_ms.specs.Eager.{passed};

use crate::sound::known;
use crate::sound::known::{Lent, LentBlock};
use crate::{block, global};
use model::{ABANDONED, BINS, Block, IN_GC};

// The blocks of this set were released before: in-gc, and abandoned once the shared part is done.
#[tactic(auto, unfolding(crate::specs::Eager::passed))]
fn released_before(lent: &Lent, set: usize) -> bool
    ensures { result ≡ passed (view lent.now.words.now) set }
{
    known::phase(lent.words) == global::RELEASING
        && (IN_GC <= set || ABANDONED <= set && global::has_released(lent.words, 0))
}

#[tactic(auto, unfolding(model::specs::Sound::eager_block, model::specs::Sound::on_unswept, model::specs::Sound::set_named, model::specs::Sound::released_before, model::specs::Sound::state_of, crate::specs::Eager::passed))]
fn eager_block(b: LentBlock) -> bool
    ensures { result ≡ eager_block (tables_of (view b.entry.lent.now.words.now) b.entry.lent.now.states.now []) b.entry.block.0 }
{
    let state = b.state();
    if state == block::UNALLOCATED {
        return true;
    }
    let set = b.list_named() / BINS;
    set % 3 != 1 && (state != block::UNMARKED || !released_before(b.lent, set))
}

// Each block, from the last one down. Nothing is asked with the choice off.
pub(crate) fn eager_ok<'a>(lent: &'a Lent<'a>) -> bool
    ensures { (m : List ℕ) → result ≡ eager_ok lent.now.space.now.p (tables_of (view lent.now.words.now) lent.now.states.now m) }
{
    if !lent.space.p.eager {
        return true;
    }
    for b in (0..lent.space.p.blocks).rev() {
        let block = Block(b);
        if !eager_block(LentBlock { lent, block }) {
            return false;
        }
    }
    true
}
