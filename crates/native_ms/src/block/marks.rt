// The brute-force reading of a cell's marks (R-3): where eight of its places share a whole mark byte, the byte is tested once.
ghost use Rattle.std.specs.Prelude.{◌≡◌, ◌+◌, ◌-◌, ◌*◌, ◌/◌, ◌%◌, ◌≤◌, ◌<◌, min, length, get_or};
ghost use Rattle.model.specs.Base.{any_below};
ghost use Rattle.model.specs.Params.{plus_lower};
ghost use Rattle.model.specs.Memory.{marked};
ghost use Rattle.model.specs.SizeClasses.{words_in};
ghost use Rattle.native_ms.specs.Bits.{any_bit, Run};

use crate::address::Space;
use crate::block::{self, Cell};

// A byte and the one behind it, low byte first.
fn pair(marks: &[u8], byte: usize) -> usize
    requires { byte < length marks.now }
    ensures { (result ≡ get_or marks.now byte 0 + 256 * get_or marks.now (byte + 1) 0) × (result < 65536) }
{
    let behind = byte + 1;
    if behind < marks.len() {
        return usize::from(marks[byte]) + usize::from(marks[behind]) * 256;
    }
    usize::from(marks[byte])
}

// Whether one of the `count` bits from `first` on is set, of at most eight: a window of two bytes, and a mask.
pub(crate) fn any_few(marks: &[u8], first: usize, count: usize) -> bool
    requires { (Run (length marks.now) first count) × (count ≤ 8) }
    ensures { result ≡ any_bit marks.now first count }
{
    let window = pair(marks, first / 8);
    let mask = (1 << count) - 1;
    let seen = (window >> (first % 8)) & mask;
    seen != 0
}

// Whether one of the eight bits from `first` on is set, which are those of a byte.
pub(crate) fn any_whole(marks: &[u8], first: usize) -> bool
    requires { (first / 8 < length marks.now) × (first % 8 ≡ 0) }
    ensures { result ≡ any_bit marks.now first 8 }
{
    let byte = first / 8;
    marks[byte] != 0
}

// Whether one of the eight bits from `first` on is set, which lie in two bytes, `shift` bits up.
// Beside `any_few`, for speed: both bytes are known to be there and the shift is known before the loop (block/chain.rt).
pub(crate) fn any_window(marks: &[u8], first: usize, shift: usize) -> bool
    requires { (first / 8 + 1 < length marks.now) × (first % 8 ≡ shift) }
    ensures { result ≡ any_bit marks.now first 8 }
{
    let byte = first / 8;
    let pair = usize::from(marks[byte]) + usize::from(marks[byte + 1]) * 256;
    let seen = (pair >> shift) & 255;
    seen != 0
}

// Whether one of the bits from `first` on is set, up to the next byte.
fn any_head(marks: &[u8], first: usize) -> bool
    requires { first / 8 < length marks.now }
    ensures { result ≡ any_bit marks.now first (8 - first % 8) }
{
    let byte = first / 8;
    let seen = marks[byte] >> (first % 8);
    seen != 0
}

// Whether one of the bits of the bytes from `from` up to `to` is set: each byte is tested once.
// A loop: by `any` the sweep of cells of 80 to 128 bytes took 5 % more instructions.
fn any_byte(marks: &[u8], from: usize, to: usize) -> bool
    requires { (from ≤ to) × (to ≤ length marks.now) }
    ensures { result ≡ any_bit marks.now (8 * from) (8 * (to - from)) }
{
    for byte in &marks[from..to] {
        if *byte != 0 {
            return true;
        }
    }
    false
}

// Whether one of the `count` bits from `first` on is set, of more than eight: those of the first byte, whole bytes, the rest.
pub(crate) fn any_many(marks: &[u8], first: usize, count: usize) -> bool
    requires { (Run (length marks.now) first count) × (8 < count) }
    ensures { result ≡ any_bit marks.now first count }
{
    let next = first / 8 + 1;
    let end = (first + count) / 8;
    let rest = (first + count) % 8;
    any_head(marks, first)
        || any_byte(marks, next, end)
        || (rest != 0 && any_few(marks, 8 * end, rest))
}

// Whether one of the `count` bits from `first` on is set.
#[tactic(auto, using(crate::proofs::Span::no_bits))]
fn any_set(marks: &[u8], first: usize, count: usize) -> bool
    requires { 0 < count → Run (length marks.now) first count }
    ensures { result ≡ any_bit marks.now first count }
{
    if count == 0 {
        return false;
    }
    if count <= 8 {
        return any_few(marks, first, count);
    }
    any_many(marks, first, count)
}

// The brute-force reading of one cell: whether one of its places is marked. Those below the heap are skipped; those past its end,
// and bits that aren't lent, end the run.
pub(crate) fn any_marked(space: &Space, marks: &[u8], cell: Cell) -> bool
    ensures { result ≡ any_below (words_in cell.size) (λ k. marked space.now.p marks.now (plus_lower space.now.p (cell.at.0 + 8 * k))) }
{
    let places = (cell.size + 7) / 8;
    let first = cell.at.0 + block::up_by(space);
    let low = space.p.base + 64;
    let skip = places.min((low.saturating_sub(first) + 7) / 8);
    let from = (first + 8 * skip).saturating_sub(low) / 8;
    let lines = marks.len().min(space.p.blocks * space.p.bytes / 64);
    let left = (8 * lines).saturating_sub(from);
    any_set(marks, from, (places - skip).min(left))
}
