// Parameters and lengths as callers hand them over: whether they are good, on arbitrary numbers.
ghost use Rattle.std.specs.Prelude.{◌≡◌, true, not, ◌&&◌, ◌||◌, ◌+◌, ◌*◌, ◌/◌, ◌%◌, ◌^◌, ◌<◌, ◌≤◌, eqb, ltb, leb, nat_abs};
ghost use Rattle.model.specs.Params.{power_of_two, lower_ok, max_rows, good_params, word_count, heap_bytes};

use crate::address::Space;
use model::{
    BLOCK_TABLES, HEAD_WORDS, HEAP_END, MAX_ALIGN, MAX_BLOCKS, MAX_BYTES, MIN_BYTES, Params, ROWS,
};

// How far L may lie from 0.
const MAX_LOWER: u64 = 64;

// A power of two up to 65,536.
#[tactic(auto, using(crate::proofs::Powers::power_low, crate::proofs::Powers::power_high))]
pub(crate) fn power_of_two(number: usize) -> bool
    ensures { result ≡ power_of_two number }
{
    number <= MAX_BYTES && number.is_power_of_two()
}

fn good_min(min: usize) -> bool
    ensures { result ≡ (eqb min 4 || eqb min 8) }
{
    min == 4 || min == 8
}

// A power of two from low to high.
pub(crate) fn power_between(number: usize, low: usize, high: usize) -> bool
    ensures { result ≡ (power_of_two number && leb low number && leb number high) }
{
    low <= number && number <= high && power_of_two(number)
}

// L: a multiple of 8, −64 to 64, and 0 if unified.
#[tactic(auto, unfolding(model::specs::Params::lower_ok))]
fn good_lower(unified: bool, lower: i64) -> bool
    ensures { result ≡ (lower_ok lower && (not unified || eqb (nat_abs lower) 0)) }
{
    let size = lower.unsigned_abs();
    size % 8 == 0 && size <= MAX_LOWER && (!unified || size == 0)
}

fn good_blocks(blocks: usize) -> bool
    ensures { result ≡ (leb 1 blocks && leb blocks 1024) }
{
    1 <= blocks && blocks <= MAX_BLOCKS
}

// Where the heap stands, once its size is known to be small.
fn good_base(base: usize, bytes: usize, blocks: usize) -> bool
    requires { (0 < bytes) × (bytes ≤ 65536) × (blocks ≤ 1024) }
    ensures { result ≡ (ltb 0 base && eqb (base % bytes) 0 && leb (base + blocks * bytes) (2 ^ 47)) }
{
    0 < base && base % bytes == 0 && base <= HEAP_END - blocks * bytes
}

// Whether every part of the parameters is good, tested in the definition's order.
#[tactic(auto, unfolding(model::specs::Params::good_params, model::specs::Params::heap_end, model::specs::Params::heap_bytes))]
pub(crate) fn good_params(p: Params) -> bool
    ensures { result ≡ good_params p }
{
    good_min(p.min)
        && power_between(p.max, p.min, MAX_ALIGN)
        && good_lower(p.unified, p.lower)
        && power_between(p.bytes, MIN_BYTES, MAX_BYTES)
        && good_blocks(p.blocks)
        && good_base(p.base, p.bytes, p.blocks)
        && p.count <= ROWS
}

// Whether lent buffers have the lengths that good parameters give.
#[tactic(auto, using(crate::proofs::Limits::blocks_few, crate::proofs::Limits::heap_few), unfolding(model::specs::Params::word_count, model::specs::Params::heap_bytes))]
pub(crate) fn lengths_fit(
    space: &Space,
    words: usize,
    states: usize,
    marks: usize,
    heap: usize,
) -> bool
    ensures { result ≡ (eqb words (word_count space.now.p) && eqb states space.now.p.blocks && eqb marks (heap_bytes space.now.p / 64) && eqb heap (heap_bytes space.now.p)) }
{
    let blocks = space.p.blocks;
    let bytes = blocks * space.p.bytes;
    words == HEAD_WORDS + BLOCK_TABLES * blocks
        && states == blocks
        && marks == bytes / 64
        && heap == bytes
}
