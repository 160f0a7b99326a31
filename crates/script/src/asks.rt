// The lines of the seven calls after set-up, and a call as the numbers that exports and rows take.
use crate::numbers;
use crate::numbers::Words;
use exports::row::CALL_WORDS;
use model::{Ask, Block, Request};
use native_ms::run;

// `-`, or a block.
fn offer(word: &str) -> Option<Option<Block>> {
    if word == "-" {
        return Some(None);
    }
    Some(Some(Block(numbers::number(word)?)))
}

// `a h size align offset block`.
fn alloc(mut words: Words) -> Option<Ask> {
    let [holder, size, align, offset] = words.take::<4>()?;
    let offer = offer(words.word()?)?;
    words.end()?;
    let request = Request {
        size,
        align,
        offset,
        offer,
    };
    Some(Ask::Alloc { holder, request })
}

// The call of a line. A match: the letters differ in the words behind them, so that a table of functions would say no less.
pub(crate) fn ask(letter: char, words: Words) -> Option<Ask> {
    match letter {
        'a' => alloc(words),
        'b' => words.all::<1>().map(|[holder]| Ask::Bind(holder)),
        'd' => words.all::<1>().map(|[holder]| Ask::Destroy(holder)),
        'm' => words
            .all::<2>()
            .map(|[place, block]| Ask::Mark { place, block }),
        'r' => words.all::<1>().map(|[holder]| Ask::Release(holder)),
        'p' => words.end().map(|()| Ask::Prepare),
        's' => words.end().map(|()| Ask::SharedRelease),
        _ => None,
    }
}

// Its kind and its arguments, zeros after: a call as `run` takes it, from C too.
pub(crate) fn numbers(ask: Ask) -> [usize; CALL_WORDS] {
    match ask {
        Ask::Bind(holder) => [1, holder, 0, 0, 0, 0],
        Ask::Destroy(holder) => [2, holder, 0, 0, 0, 0],
        Ask::Alloc { holder, request } => {
            let offer = request.offer.map_or(run::NO_OFFER, |block| block.0);
            [
                3,
                holder,
                request.size,
                request.align,
                request.offset,
                offer,
            ]
        }
        Ask::Prepare => [4, 0, 0, 0, 0, 0],
        Ask::Mark { place, block } => [5, place, block, 0, 0, 0],
        Ask::Release(holder) => [6, holder, 0, 0, 0, 0],
        Ask::SharedRelease => [7, 0, 0, 0, 0, 0],
    }
}
