// The leaves: bins, raised sizes and shifted addresses.
use crate::numbers::Words;
use crate::reply::Reply;
use crate::rows;
use model::{Address, Params};
use native_ms::{allocator, size_class};

// A bin, of which the functions asked give 0 for none, as 01 numbers bins: an Option made of it would be taken apart at once.
fn bin_reply(bin: usize) -> Reply {
    if bin == 0 {
        Reply::Nothing
    } else {
        Reply::One(bin)
    }
}

// `n size`.
pub(crate) fn bin(p: &Params, words: Words) -> Option<Reply> {
    let [size] = words.all::<1>()?;
    rows::accepted(p).then(|| bin_reply(size_class::bin_of(*p, size)))
}

// `t words`.
pub(crate) fn bin_of_words(words: Words) -> Option<Reply> {
    let [count] = words.all::<1>()?;
    Some(bin_reply(usize::from(size_table::bin_of_words(count))))
}

// What alloc would not refuse as BadRequest. The library's test asks for parameters known to be good, as by a rule no public function may.
fn is_good_request(p: &Params, size: usize, align: usize, offset: usize) -> bool {
    size.is_multiple_of(p.min)
        && offset.is_multiple_of(p.min)
        && offset <= 65536
        && p.min <= align
        && align <= p.max
        && align.is_power_of_two()
}

// Without rows the same parameters with the largest block, since 01's bins don't depend on it.
fn largest(p: &Params) -> Params {
    if p.count == 0 {
        Params { bytes: 65536, ..*p }
    } else {
        *p
    }
}

// The cell size of a bin, in bytes. The library's asks for bins and rows known to be good, as by a rule no public function may.
fn cell_size(p: &Params, bin: usize) -> usize {
    if p.count == 0 {
        return size_class::class_bytes(bin);
    }
    let row = bin.checked_sub(1).and_then(|at| p.rows.get(at));
    row.map_or(0, |row| row.cell.saturating_mul(8))
}

// `q size align`.
pub(crate) fn raised(p: &Params, words: Words) -> Option<Reply> {
    let [size, align] = words.all::<2>()?;
    if !rows::accepted(p) || !is_good_request(p, size, align, 0) {
        return None;
    }
    let Some(n) = allocator::get_maximum_aligned_size(largest(p), size, align) else {
        return Some(Reply::Nothing);
    };
    let bin = size_class::bin_of(*p, n);
    Some(Reply::Three(n, bin, cell_size(p, bin)))
}

// `g region align offset`.
pub(crate) fn aligned(p: &Params, words: Words) -> Option<Reply> {
    let [region, align, offset] = words.all::<3>()?;
    let is_region = region != 0 && region % 8 == 0 && region < 1 << 47;
    if !is_region || !is_good_request(p, 0, align, offset) {
        return None;
    }
    let address = allocator::shift_address(Address(region), align, offset)?;
    Some(Reply::One(address.0))
}
