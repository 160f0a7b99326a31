// What is lent at set-up: tables and marks of 0xA5 bytes, a heap from a seed; and the hash of a heap.
use crate::space::Lent;

// Each byte is the top one of the seed, which goes on before it.
fn seeded(heap: &mut [u8], seed: usize) {
    let mut x = seed;
    for byte in heap {
        x = x
            .wrapping_mul(6364136223846793005)
            .wrapping_add(1442695040888963407);
        *byte = (x >> 56) as u8;
    }
}

pub(crate) fn all(lent: &mut Lent, seed: usize) {
    lent.words.fill(0xA5A5_A5A5_A5A5_A5A5);
    lent.states.fill(0xA5);
    lent.marks.fill(0xA5);
    if seed == 0 {
        lent.heap.fill(0);
    } else {
        seeded(lent.heap, seed);
    }
}

// FNV-1a, 64 bits.
pub(crate) fn hash(bytes: &[u8]) -> usize {
    bytes
        .iter()
        .fold(14695981039346656037, |hash: usize, byte| {
            (hash ^ usize::from(*byte)).wrapping_mul(1099511628211)
        })
}
