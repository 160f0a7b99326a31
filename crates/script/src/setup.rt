// `setup base log_block_bytes blocks MIN MAX use_offset unified L seed eager`.
use crate::numbers::Words;
use crate::reply::Reply;
use crate::rows::Rows;
use crate::space::Memory;
use crate::{direct, fill, rows, space, through};
use exports::{Entry, call};
use model::{Params, Refusal};

// What a set-up asks for: its parameters, whether good or off, with the rows in force; and the seed of the heap's bytes.
#[derive(Clone, Copy)]
pub(crate) struct Start {
    pub params: Params,
    pub seed: usize,
}

// The set-up of a line. The eager word may be left out, and is 0 then.
pub(crate) fn read(rows: &Rows, mut words: Words) -> Option<Start> {
    let [base, log, blocks, min, max] = words.take::<5>()?;
    let offsets = words.flag()?;
    let unified = words.flag()?;
    let lower = words.signed()?;
    let seed = words.number()?;
    let eager = !words.is_done() && words.flag()?;
    words.end()?;
    if 63 < log {
        return None;
    }
    let params = Params {
        base,
        bytes: 1 << log,
        blocks,
        min,
        max,
        offsets,
        unified,
        lower,
        eager,
        rows: rows.table,
        count: rows.count,
    };
    Some(Start { params, seed })
}

fn refused(via: Option<usize>, refusal: Refusal) -> Reply {
    match via {
        None => Reply::from(refusal),
        Some(length) => through::refused(refusal, length),
    }
}

// Past the capacity: the check of the rows says whether the parameters are good. An answer slice of another length comes before
// the rows.
fn beyond(p: &Params, via: Option<usize>) -> Option<Reply> {
    match rows::verdict(p) {
        Reply::Done => None,
        Reply::Refused(_) => Some(refused(via, Refusal::BadSetup)),
        _ if via.is_none_or(|length| length == call::ANSWER_BYTES) => {
            Some(refused(via, Refusal::BadClasses))
        }
        _ => Some(refused(via, Refusal::BadSetup)),
    }
}

// Fills what is lent, and calls set-up.
pub(crate) fn set_up(start: &Start, via: Option<usize>, memory: &mut Memory) -> Option<Reply> {
    let p = &start.params;
    if !space::has_room(p) {
        return beyond(p, via);
    }
    let mut lent = memory.lend(p);
    fill::all(&mut lent, start.seed);
    Some(direct::call(p, via, &mut lent, Entry::SetUp))
}
