// The tests of the calls, in the order of document 01's refusals: what every call tests first, and then each its own. The
// definitions of these names stand in the model's Calls.antt.
ghost use Rattle.std.specs.Prelude.{◌≡◌, true, ◌&&◌, ◌||◌, List, ℕ, ◌<◌, ◌≤◌, ◌^◌, length, eqb};
ghost use Rattle.model.specs.Params.{good_params, head_words, fits, minus_lower};
ghost use Rattle.model.specs.Tables.{Words, view, tables_of};
ghost use Rattle.model.specs.SizeClasses.{bin_of, raised};
ghost use Rattle.model.specs.Global.{is_holder, has_released};
ghost use Rattle.model.specs.Calls.{alloc, good_offer, good_object, phase_test, bind_tests, leave_tests, bound_tests, request_tests, mark_tests, release_tests, shared_tests, call_tests};
ghost use Rattle.model.specs.Promise.{lend};
ghost use Rattle.native_ms.specs.Space.{in_block};
ghost use Rattle.native_ms.specs.SoundLent.{Lengths};
ghost use Rattle.native_ms.specs.Checked.{lent_tests, bin_after};

use crate::address::Space;
use crate::sound::known;
use crate::{allocator, block, classes, free_counts, global, params, size_class};
use model::{Address, Block, Params, Refusal, Request};
use words::{states, tables};

// ---- what every call tests first

// Whether parameters and lengths are good.
pub(crate) fn lent_fits(
    p: Params,
    words: &[usize],
    states: &[u8],
    marks: &[u8],
    heap: &[u8],
) -> bool
    ensures { result ≡ fits p (lend words.now states.now marks.now heap.now) }
{
    if !params::good_params(p) {
        return false;
    }
    params::lengths_fit(
        &Space { p },
        words.len(),
        states.len(),
        marks.len(),
        heap.len(),
    )
}

// Parameters and lengths, the rows, and that the tables are sound.
pub(crate) fn check_lent(
    p: Params,
    words: &[usize],
    states: &[u8],
    marks: &[u8],
    heap: &[u8],
) -> Result<(), Refusal>
    ensures { result ≡ lent_tests p (lend words.now states.now marks.now heap.now) }
{
    if !lent_fits(p, words, states, marks, heap) {
        return Err(Refusal::BadSetup);
    }
    if !classes::classes_fit(&Space { p }) {
        return Err(Refusal::BadClasses);
    }
    if !free_counts::sound_on(p, words, states, heap) {
        return Err(Refusal::BadTables);
    }
    Ok(())
}

// ---- phase and holder: each call's tests stand by themselves, as 01 lists them; what two of them share is a line

pub(crate) fn check_phase(w: &[usize], phase: usize) -> Result<(), Refusal>
    ensures { result ≡ phase_test (view w.now) phase }
{
    if tables::phase(w) == phase {
        return Ok(());
    }
    Err(Refusal::WrongPhase)
}

pub(crate) fn check_bind(w: &[usize], holder: usize) -> Result<(), Refusal>
    ensures { result ≡ bind_tests (view w.now) holder }
{
    check_phase(w, global::RUNNING)?;
    if !global::is_holder(holder) {
        return Err(Refusal::BadHolder);
    }
    if global::is_bound(w, holder) {
        return Err(Refusal::BadHolder);
    }
    Ok(())
}

// Whether the phase is one of the two.
fn phase_in(w: &[usize], one: usize, other: usize) -> bool
    ensures { result ≡ (eqb (view w.now).phase one || eqb (view w.now).phase other) }
{
    let f = tables::phase(w);
    f == one || f == other
}

// A holder may leave while Running or Marking.
pub(crate) fn check_leave(w: &[usize], holder: usize) -> Result<(), Refusal>
    ensures { result ≡ leave_tests (view w.now) holder }
{
    if !phase_in(w, global::RUNNING, global::MARKING) {
        return Err(Refusal::WrongPhase);
    }
    if !global::is_bound(w, holder) {
        return Err(Refusal::BadHolder);
    }
    Ok(())
}

// The same where the words are known to be there.
pub(crate) fn check_bound(w: &[usize], holder: usize) -> Result<(), Refusal>
    requires { head_words ≤ length w.now }
    ensures { result ≡ bound_tests (view w.now) holder }
{
    if known::phase(w) != global::RUNNING {
        return Err(Refusal::WrongPhase);
    }
    if !global::is_holder(holder) {
        return Err(Refusal::BadHolder);
    }
    if known::bound(w, holder) != 1 {
        return Err(Refusal::BadHolder);
    }
    Ok(())
}

// ---- alloc

// Whether the offer, if any, is a block that is not in use.
fn good_offer(p: Params, st: &[u8], offer: Option<Block>) -> bool
    requires { length st.now ≡ p.blocks }
    ensures { (w : Words) (m : List ℕ) → result ≡ good_offer p (tables_of w st.now m) offer }
{
    match offer {
        None => true,
        Some(b) => {
            if b.0 < p.blocks {
                let state = known::state(st, b);
                return state == block::UNALLOCATED;
            }
            false
        }
    }
}

// The tests of what is asked for.
fn check_request(space: &Space, st: &[u8], request: Request) -> Result<usize, Refusal>
    requires { length st.now ≡ space.now.p.blocks }
    ensures { (w : Words) (m : List ℕ) → result ≡ bin_after (request_tests space.now.p (tables_of w st.now m) request.size request.align request.offset request.offer) (bin_of space.now.p (raised space.now.p request.size request.align)) }
{
    if !allocator::good_request(space, request.size, request.align, request.offset) {
        return Err(Refusal::BadRequest);
    }
    let size = allocator::get_maximum_aligned_size(space.p, request.size, request.align).ok_or(
        Refusal::TooBig,
    )?;
    if !good_offer(space.p, st, request.offer) {
        return Err(Refusal::BadOffer);
    }
    Ok(size_class::bin_of(space.p, size))
}

pub(crate) fn check_alloc(
    space: &Space,
    w: &[usize],
    st: &[u8],
    holder: usize,
    request: Request,
) -> Result<usize, Refusal>
    requires { Lengths space.now.p w.now st.now }
    ensures { (m : List ℕ) → result ≡ bin_after (call_tests space.now.p (tables_of (view w.now) st.now m) (alloc holder request.size request.align request.offset request.offer)) (bin_of space.now.p (raised space.now.p request.size request.align)) }
{
    check_bound(w, holder)?;
    check_request(space, st, request)
}

// ---- mark

// Where the object of a mark place starts: place − L.
fn minus_lower(space: &Space, place: Address) -> Address
    requires { (4096 ≤ place.0) × (place.0 ≤ 2 ^ 48) }
    ensures { result.0 ≡ minus_lower space.now.p place.0 }
{
    let a = place.0 + 64;
    let object = a - block::biased(space.p.lower);
    Address(object)
}

fn in_block(space: &Space, b: Block, a: Address) -> bool
    requires { b.0 < space.now.p.blocks }
    ensures { result ≡ in_block space.now.p b.0 a.0 }
{
    let from = space.start(b);
    let v = from.0;
    let x = a.0;
    if x < v {
        return false;
    }
    x < v + space.p.bytes
}

// Whether the place can be marked for the block.
fn good_object(space: &Space, st: &[u8], place: Address, b: Block) -> bool
    ensures { (w : Words) (m : List ℕ) → result ≡ good_object space.now.p (tables_of w st.now m) place.0 b.0 }
{
    let inside = space.in_heap(place);
    if !inside {
        return false;
    }
    if place.0 % 8 != 0 {
        return false;
    }
    let i = b.0;
    if space.p.blocks <= i {
        return false;
    }
    let s = states::state(st, i);
    if s == block::UNALLOCATED {
        return false;
    }
    let a = minus_lower(space, place);
    in_block(space, b, a)
}

pub(crate) fn check_mark(
    space: &Space,
    w: &[usize],
    st: &[u8],
    place: Address,
    b: Block,
) -> Result<(), Refusal>
    ensures { (m : List ℕ) → result ≡ mark_tests space.now.p (tables_of (view w.now) st.now m) place.0 b.0 }
{
    check_phase(w, global::MARKING)?;
    if !good_object(space, st, place, b) {
        return Err(Refusal::BadObject);
    }
    Ok(())
}

// ---- releases

fn released_already(w: &[usize], holder: usize) -> bool
    ensures { result ≡ (is_holder holder && has_released (view w.now) holder) }
{
    global::is_holder(holder) && global::has_released(w, holder)
}

pub(crate) fn check_release(w: &[usize], holder: usize) -> Result<(), Refusal>
    ensures { result ≡ release_tests (view w.now) holder }
{
    if !phase_in(w, global::MARKING, global::RELEASING) {
        return Err(Refusal::WrongPhase);
    }
    if released_already(w, holder) {
        return Err(Refusal::WrongPhase);
    }
    if !global::is_bound(w, holder) {
        return Err(Refusal::BadHolder);
    }
    Ok(())
}

pub(crate) fn check_shared_release(w: &[usize]) -> Result<(), Refusal>
    ensures { result ≡ shared_tests (view w.now) }
{
    if !phase_in(w, global::MARKING, global::RELEASING) {
        return Err(Refusal::WrongPhase);
    }
    if global::has_released(w, 0) {
        return Err(Refusal::WrongPhase);
    }
    Ok(())
}
