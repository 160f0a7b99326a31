// Words, zeros and mark bits by address, over the lent heap and mark bytes. Total: an address below the heap is taken for
// its first byte, as in the definitions. At the end, words, zeros and mark bits by offset and index that are known to be there: `words` has these
// for any place, with a test of each, which the loops over a block's cells can't afford.
#![tactic(auto, unfolding(model::specs::Memory::load, model::specs::Memory::store, model::specs::Memory::zeroed, model::specs::Memory::set_mark, model::specs::Memory::mark_index))]

// Each takes parameters, heap and address, as its definition does.
ghost use Rattle.std.specs.Prelude.{◌≡◌, ◌+◌, ◌-◌, ◌/◌, ◌%◌, ◌<◌, ◌≤◌, length, get_or, replicate};
ghost use Rattle.model.specs.Memory.{load, store, zeroed, marked, set_mark, load_bytes, bytes_of, overwrite, bit_of};

use crate::address::Space;
use model::{Address, Params};
use words::{bytes, marks};

// Where an address stands in the heap.
fn offset(p: Params, a: Address) -> usize
    ensures { result ≡ a.0 - p.base }
{
    a.0.saturating_sub(p.base)
}

pub(crate) fn load(p: Params, h: &[u8], a: Address) -> usize
    ensures { result ≡ load p h.now a.0 }
{
    bytes::load_word(h, offset(p, a))
}

// `store` and `zero` are a line each: one function that is given the step would be no plainer.
pub(crate) fn store(p: Params, h: &mut [u8], a: Address, v: usize)
    ensures { h.new ≡ store p h.old a.0 v }
{
    bytes::store_word(h, offset(p, a), v);
}

pub(crate) fn zero(p: Params, h: &mut [u8], a: Address, n: usize)
    ensures { h.new ≡ zeroed p h.old a.0 n }
{
    bytes::zero(h, offset(p, a), n);
}

// Whether a place is marked; one outside the heap is not.
#[tactic(auto, using(laws::proofs::Marks::marked_inside, laws::proofs::Marks::marked_out))]
pub(crate) fn is_marked(space: &Space, m: &[u8], place: Address) -> bool
    ensures { result ≡ marked space.now.p m.now place.0 }
{
    space.in_heap(place) && marks::test(m, offset(space.p, place) / 8)
}

pub(crate) fn set_mark(p: Params, m: &mut [u8], place: Address)
    ensures { m.new ≡ set_mark p m.old place.0 }
{
    marks::set_bit(m, offset(p, place) / 8);
}

// ---- at places that are known to be there

// The word at an offset.
pub(crate) fn word_at(h: &[u8], i: usize) -> usize
    requires { i + 8 ≤ length h.now }
    ensures { result ≡ load_bytes 8 h.now i }
{
    let mut bytes = [0; 8];
    bytes.copy_from_slice(&h[i..i + 8]);
    usize::from_le_bytes(bytes)
}

pub(crate) fn put_word(h: &mut [u8], i: usize, v: usize)
    requires { i + 8 ≤ length h.old }
    ensures { h.new ≡ overwrite i (bytes_of 8 v) h.old }
{
    h[i..i + 8].copy_from_slice(&v.to_le_bytes());
}

// Makes the n bytes from an offset on 0.
pub(crate) fn clear(h: &mut [u8], i: usize, n: usize)
    requires { i + n ≤ length h.old }
    ensures { h.new ≡ overwrite i (replicate n 0) h.old }
{
    h[i..i + n].fill(0);
}

// Mark bit g.
pub(crate) fn bit(m: &[u8], g: usize) -> bool
    requires { g / 8 < length m.now }
    ensures { result ≡ bit_of (get_or m.now (g / 8) 0) (g % 8) }
{
    (m[g / 8] >> (g % 8)) & 1 == 1
}
