// The lines on a set-up that stands, and the answer of each.
use crate::numbers::Words;
use crate::reply::Reply;
use crate::space::Lent;
use crate::{asks, leaves, loads, records, rows, through};
use exports::Entry;
use model::Params;
use native_ms::free_counts;

// `u set`: the 49 records of the set are those of its lists. It is given no rows.
fn pages(p: &Params, lent: &Lent, words: Words) -> Option<Reply> {
    let [set] = words.all::<1>()?;
    let answer = records::pages(&rows::without(p), lent.words, set)?;
    Some(answer.into())
}

// `v bin`: the total free cells of the bin.
fn free_cells(p: &Params, lent: &Lent, words: Words) -> Option<Reply> {
    let [bin] = words.all::<1>()?;
    let answer = free_counts::free_cells(*p, lent.words, lent.states, lent.marks, lent.heap, bin);
    Some(answer.into())
}

// Set-up or a call, through its export where these are in force.
pub(crate) fn call(p: &Params, via: Option<usize>, lent: &mut Lent, entry: Entry) -> Reply {
    if let Some(length) = via {
        return through::answer(p, length, lent, entry);
    }
    let said = entry.enter(*p, lent.words, lent.states, lent.marks, lent.heap);
    Reply::of_call(entry, said)
}

// The answer to a line of one letter. A match: each line is given another part of what is lent, which functions of one form would have to
// take whole.
pub(crate) fn answer(
    p: &Params,
    via: Option<usize>,
    lent: &mut Lent,
    letter: char,
    rest: &str,
) -> Option<Reply> {
    if letter == 'K' {
        return loads::marks(lent.marks, rest);
    }
    let words = Words::new(rest)?;
    match letter {
        'n' => leaves::bin(p, words),
        't' => leaves::bin_of_words(words),
        'q' => leaves::raised(p, words),
        'g' => leaves::aligned(p, words),
        'w' => loads::heap_word(p, lent.heap, words),
        'T' => loads::block(lent, words),
        'F' => loads::list(lent.words, words),
        'G' => loads::phase(lent.words, words),
        'u' => pages(p, lent, words),
        'v' => free_cells(p, lent, words),
        _ => {
            let ask = asks::ask(letter, words)?;
            Some(call(p, via, lent, Entry::Call(ask)))
        }
    }
}
