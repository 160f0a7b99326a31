// The 49 list records of a set, lent to the library as a slice.
use model::{Address, BINS, Params, Refusal, SETS};
use native_ms::block_list::BlockList;
use native_ms::{block_list, size_class};
use std::array;
use words::tables;

// The record of a list and its bin, as the table words have it.
fn record(words: &[usize], list: usize, bin: usize) -> BlockList {
    BlockList {
        first: Address(tables::first(words, list)),
        last: Address(tables::last(words, list)),
        size: size_class::class_bytes(bin),
    }
}

// The pages used of a set, if the words have its lists.
pub(crate) fn pages(p: &Params, words: &[usize], set: usize) -> Option<Result<usize, Refusal>> {
    if set >= SETS || words.len() < BINS * set + BINS {
        return None;
    }
    let records: [BlockList; BINS] = array::from_fn(|bin| record(words, BINS * set + bin, bin));
    Some(block_list::pages_used(*p, words, &records))
}
