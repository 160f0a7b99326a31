// Lines that put numbers into what is lent, as they are.
use crate::numbers::Words;
use crate::reply::Reply;
use crate::space::Lent;
use model::{HOLDERS, LISTS, PARTS, Params};
use words::{bytes, states, tables};

// `w address value`: 8 bytes of the heap.
pub(crate) fn heap_word(p: &Params, heap: &mut [u8], words: Words) -> Option<Reply> {
    let [address, value] = words.all::<2>()?;
    let at = address.checked_sub(p.base)?;
    let last = heap.len().checked_sub(8)?;
    if last < at {
        return None;
    }
    bytes::store_word(heap, at, value);
    Some(Reply::Done)
}

// `T block state next prev free size list tls count`; without its count the word is left as it stands.
pub(crate) fn block(lent: &mut Lent, mut words: Words) -> Option<Reply> {
    let [i, state, next, prev, free, size, list, tls] = words.take::<8>()?;
    let cells = if words.is_done() {
        None
    } else {
        Some(words.number()?)
    };
    words.end()?;
    let state = u8::try_from(state).ok()?;
    if lent.states.len() <= i {
        return None;
    }
    states::set_state(lent.states, i, state);
    let w = &mut *lent.words;
    tables::set_next(w, i, next);
    tables::set_prev(w, i, prev);
    tables::set_free(w, i, free);
    tables::set_size(w, i, size);
    tables::set_list(w, i, list);
    tables::set_tls(w, i, tls);
    if let Some(cells) = cells {
        tables::set_cells(w, i, cells);
    }
    Some(Reply::Done)
}

// `F list first last`, lists from 1 on.
pub(crate) fn list(w: &mut [usize], words: Words) -> Option<Reply> {
    let [number, first, last] = words.all::<3>()?;
    let list = number.checked_sub(1)?;
    if LISTS <= list {
        return None;
    }
    tables::set_first(w, list, first);
    tables::set_last(w, list, last);
    Some(Reply::Done)
}

// `G phase bound released`: bit h for the holder h, bit 0 of released for the shared part.
pub(crate) fn phase(w: &mut [usize], words: Words) -> Option<Reply> {
    let [phase, bound, released] = words.all::<3>()?;
    if 510 < bound || bound % 2 != 0 || 511 < released {
        return None;
    }
    tables::set_phase(w, phase);
    for holder in 0..HOLDERS {
        tables::set_bound(w, holder, (bound >> (holder + 1)) & 1);
    }
    for part in 0..PARTS {
        tables::set_released(w, part, (released >> part) & 1);
    }
    Some(Reply::Done)
}

// The number of a lower-case digit.
fn digit(b: u8) -> Option<u8> {
    match b {
        b'0'..=b'9' => Some(b - b'0'),
        b'a'..=b'f' => Some(b - b'a' + 10),
        _ => None,
    }
}

fn byte(high: u8, low: u8) -> Option<u8> {
    Some(digit(high)? << 4 | digit(low)?)
}

// `K hex`: two digits for each mark byte.
pub(crate) fn marks(marks: &mut [u8], rest: &str) -> Option<Reply> {
    let digits = rest.strip_prefix(' ')?.as_bytes();
    let (pairs, []) = digits.as_chunks::<2>() else {
        return None;
    };
    if pairs.len() != marks.len() {
        return None;
    }
    for (mark, pair) in marks.iter_mut().zip(pairs) {
        let [high, low] = *pair;
        *mark = byte(high, low)?;
    }
    Some(Reply::Done)
}
