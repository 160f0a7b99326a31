// The phase, the bound holders and the released marks.
ghost use Rattle.std.specs.Prelude.{◌≡◌, ◌<◌, ◌&&◌};
ghost use Rattle.model.specs.Base.{all_below, any_below};
ghost use Rattle.model.specs.Params.{holders, parts};
ghost use Rattle.model.specs.Tables.{view};
ghost use Rattle.model.specs.Global.{has_released};
ghost use Rattle.model.specs.Sound.{in_gc_empty, phase_known, released_some};
ghost use Rattle.native_ms.specs.SoundWalk.{holder_fits, part_fits};

use crate::global;
use crate::sound::lists::Lists;
use model::{HOLDERS, IN_GC, PARTS};
use words::tables;

// The holder i + 1: its bound word, and its lists if it is not bound or has released.
#[tactic(auto, unfolding(crate::specs::SoundWalk::holder_fits, model::specs::Params::local_sets))]
fn holder_fits(lists: &Lists, i: usize) -> bool
    requires { i < holders }
    ensures { result ≡ holder_fits (view lists.now.lent.now.words.now) i }
{
    let words = lists.lent.words;
    let holder = i + 1;
    tables::bound(words, i) <= 1
        && (global::is_bound(words, holder) && !global::has_released(words, holder)
            || lists.owner_empty(3 * i))
}

// This and `parts_fit` are a line each.
fn holders_fit(lists: &Lists) -> bool
    ensures { result ≡ all_below holders (holder_fits (view lists.now.lent.now.words.now)) }
{
    (0..HOLDERS).all(|i| holder_fits(lists, i))
}

// A part's released mark: set only in Releasing, only for bound holders and the shared part.
#[tactic(auto, unfolding(crate::specs::SoundWalk::part_fits))]
fn part_fits(words: &[usize], part: usize) -> bool
    ensures { result ≡ part_fits (view words.now) part }
{
    tables::released(words, part) <= 1
        && (!global::has_released(words, part)
            || tables::phase(words) == global::RELEASING
                && (part == 0 || global::is_bound(words, part)))
}

fn parts_fit(words: &[usize]) -> bool
    ensures { result ≡ all_below parts (part_fits (view words.now)) }
{
    (0..PARTS).all(|part| part_fits(words, part))
}

fn any_released(words: &[usize]) -> bool
    ensures { result ≡ any_below parts (has_released (view words.now)) }
{
    (0..PARTS).any(|part| global::has_released(words, part))
}

#[tactic(auto, unfolding(model::specs::Sound::released_some))]
fn released_some(words: &[usize]) -> bool
    ensures { result ≡ released_some (view words.now) }
{
    let phase = tables::phase(words);
    phase != global::RELEASING || any_released(words) && !global::all_released(words)
}

#[tactic(auto, unfolding(model::specs::Sound::in_gc_empty))]
fn in_gc_empty(lists: &Lists) -> bool
    ensures { result ≡ in_gc_empty (view lists.now.lent.now.words.now) }
{
    tables::phase(lists.lent.words) == global::RELEASING || lists.owner_empty(IN_GC)
}

#[tactic(auto, unfolding(model::specs::Sound::phase_known))]
fn phase_known(words: &[usize]) -> bool
    ensures { result ≡ phase_known (view words.now) }
{
    let phase = tables::phase(words);
    phase == global::RUNNING || phase == global::MARKING || phase == global::RELEASING
}

// The phase and every part: what is tested before the lists' words are read.
pub(crate) fn marks_fit(words: &[usize]) -> bool
    ensures { result ≡ (phase_known (view words.now) && all_below parts (part_fits (view words.now)) && released_some (view words.now)) }
{
    phase_known(words) && parts_fit(words) && released_some(words)
}

// Every holder, and in-gc.
pub(crate) fn lists_fit(lists: &Lists) -> bool
    ensures { result ≡ (all_below holders (holder_fits (view lists.now.lent.now.words.now)) && in_gc_empty (view lists.now.lent.now.words.now)) }
{
    holders_fit(lists) && in_gc_empty(lists)
}
