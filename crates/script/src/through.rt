// The eight calls through the exports (`x`): the table words go as bytes and come back.
use crate::reply::{MOST_ANSWER, Reply, Sent};
use crate::rows;
use crate::space::{Lent, WORDS, first};
use arrayvec::ArrayVec;
use exports::{Entry, call, codec};
use model::{Given, Params, Refusal};

// The bytes of the table words.
const WORD_BYTES: usize = 8 * WORDS;

// An answer slice of so many bytes, which are 0xA5 before a call.
fn before(length: usize) -> ArrayVec<u8, MOST_ANSWER> {
    let mut answer = ArrayVec::from([0xA5; MOST_ANSWER]);
    answer.truncate(length);
    answer
}

// Set-up or a call through its export.
pub(crate) fn answer(p: &Params, length: usize, lent: &mut Lent, entry: Entry) -> Reply {
    let mut words = [0u8; WORD_BYTES];
    let mut rows = [0u8; rows::ROOM];
    let mut answer = before(length);
    let count = 8 * lent.words.len().min(WORDS);
    let words = first(&mut words, count);
    codec::encode(words, lent.words);
    rows::encode(p, &mut rows);
    let number = call::export(
        Given::from(*p),
        words,
        lent.states,
        lent.marks,
        lent.heap,
        first(&mut rows, rows::length(p)),
        answer.as_mut_slice(),
        entry.told(),
    );
    let _ = codec::decode(words, lent.words);
    Reply::Export(Sent { number, answer })
}

// A refusal where nothing can be lent.
pub(crate) fn refused(refusal: Refusal, length: usize) -> Reply {
    Reply::Export(Sent {
        number: usize::from(refusal),
        answer: before(length),
    })
}
