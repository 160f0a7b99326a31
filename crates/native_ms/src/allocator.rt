// Requests: what may be asked for, the size raised by the align, and the shift of an address.
ghost use Rattle.std.specs.Prelude.{◌≡◌, ◌&&◌, ◌%◌, ◌^◌, ◌<◌, ◌≤◌, eqb, ltb, leb};
ghost use Rattle.model.specs.SizeClasses.{align_allocation};
ghost use Rattle.model.specs.Calls.{good_request};
ghost use Rattle.native_ms.specs.Raised.{raised_to, shifted_to};

use crate::address::Space;
use crate::params;
use model::{Address, HEAP_END, MAX_ALIGN, MAX_OFFSET, Params};

// The size raised by the align, if a block can hold it. The room is compared: the sum may be past 2^64.
pub fn get_maximum_aligned_size(p: Params, size: usize, align: usize) -> Option<usize>
    ensures { result ≡ raised_to p size align }
{
    let more = align.saturating_sub(p.min);
    let room = p.bytes.checked_sub(size)?;
    if room < more {
        return None;
    }
    Some(size + more)
}

// What is left of a number by an align. Those of requests are powers of two, and need no division: tried without the test, a run of
// allocs took 6 % longer on a quiet machine, and as long on a busy one.
fn rest_of(number: usize, align: usize) -> usize
    requires { 0 < align }
    ensures { result ≡ number % align }
{
    if align.is_power_of_two() {
        return number & (align - 1);
    }
    number % align
}

// The least address from region on that is a multiple of align once offset is added.
pub(crate) fn align_allocation(region: Address, align: usize, offset: usize) -> Address
    requires { (0 < align) × (align ≤ 64) × (region.0 < 2 ^ 47) × (offset ≤ 65536) }
    ensures { result.0 ≡ align_allocation region.0 align offset }
{
    let from = region.0;
    let rest = rest_of(from + offset, align);
    if rest == 0 {
        return region;
    }
    Address(from + (align - rest))
}

// Whether a request can have an align and an offset, and the heap the region.
fn may_shift(region: Address, align: usize, offset: usize) -> bool
    ensures { result ≡ (leb 1 align && leb align 64 && ltb region.0 (2 ^ 47) && leb offset 65536) }
{
    1 <= align && align <= MAX_ALIGN && region.0 < HEAP_END && offset <= MAX_OFFSET
}

// `align_allocation` on any numbers: none where a request can't be so.
pub fn shift_address(region: Address, align: usize, offset: usize) -> Option<Address>
    ensures { result ≡ shifted_to region.0 align offset }
{
    if !may_shift(region, align, offset) {
        return None;
    }
    Some(align_allocation(region, align, offset))
}

// Whether MIN, 4 or 8, divides x: most sizes are of whole words, and no division is made.
fn min_divides(space: &Space, x: usize) -> bool
    ensures { result ≡ eqb (x % space.now.p.min) 0 }
{
    if x % 8 == 0 {
        return true;
    }
    if space.p.min == 8 {
        return false;
    }
    x % 4 == 0
}

// Whether size, align and offset may be asked for.
pub(crate) fn good_request(space: &Space, size: usize, align: usize, offset: usize) -> bool
    ensures { result ≡ good_request space.now.p size align offset }
{
    if !min_divides(space, size) {
        return false;
    }
    if !min_divides(space, offset) {
        return false;
    }
    if MAX_OFFSET < offset {
        return false;
    }
    params::power_between(align, space.p.min, space.p.max)
}
