// The exports of single calls. Each is a call of the library between a decoding and an encoding; the parameters come as numbers, and the
// rows of a class table as bytes.
//
// For BadSetup its number is returned, here and in row.rt, and no Result: what is returned goes to C as it is.
ghost use Rattle.std.specs.Prelude.{◌≡◌, ◌<◌, ◌*◌, ◌&&◌, false, true, if◌then◌else◌, length, MatchOption, leb, eqb};
ghost use Rattle.model.specs.Exports.{lend_bytes, gives, answer_bytes, tells, exported, row_from, rows_of, params_of, flags_ok, rows_ok, called, check_gives, check_called};
ghost use Rattle.exports.specs.Entry.{inner_of};

use crate::{Entry, codec};
use model::{BLOCK_TABLES, Given, HEAD_WORDS, Params, ROWS, Refusal, Row, Said};
use native_ms::classes;
use words::bytes;

// The bytes of an answer: four words.
pub const ANSWER_BYTES: usize = 32;

// Those of a row: three words.
pub const ROW_BYTES: usize = 24;

// The words of the largest tables: those of lists, phase and holders, and those of each block.
const MOST_BLOCKS: usize = 1024;

pub(crate) const MOST_WORDS: usize = HEAD_WORDS + BLOCK_TABLES * MOST_BLOCKS;

// Whether a call that returns this number has numbers for the answer's slice; any other refusal leaves that slice alone.
fn tells(number: usize) -> bool
    ensures { result ≡ tells number }
{
    number == 0 || number == usize::from(Refusal::Exhausted)
}

// The number that a call returns. Its answer's numbers go over the lent slice, if it has any.
#[tactic(auto, using(crate::proofs::Coding::encode_whole))]
fn tell(answer: &mut [u8; ANSWER_BYTES], said: Said) -> usize
    ensures number { result ≡ said.number }
    ensures answer { answer.new ≡ (if tells said.number then answer_bytes said else answer.old) }
{
    if tells(said.number) {
        codec::encode(answer, &[said.first, said.second, said.third, said.fourth]);
    }
    said.number
}

// The inner call between a decoding and an encoding back. It tests the lengths that these do not. The room for the decoded words is this
// call's own, so that a host lends none.
#[tactic(auto, using(crate::proofs::Export::off_answer, crate::proofs::Export::off_words))]
fn run(
    p: Params,
    words: &mut [u8],
    states: &mut [u8],
    marks: &mut [u8],
    heap: &mut [u8],
    answer: &mut [u8],
    inner: Entry,
) -> usize
    ensures { gives result (lend_bytes words.new states.new marks.new heap.new answer.new) ≡ exported p (lend_bytes words.old states.old marks.old heap.old answer.old) (inner_of inner) }
{
    let Some(answer) = answer.as_mut_array() else {
        return usize::from(Refusal::BadSetup);
    };
    let mut room = [0; MOST_WORDS];
    let Some(w) = codec::decode(words, &mut room) else {
        return usize::from(Refusal::BadSetup);
    };
    let said = inner.enter(p, w, states, marks, heap);
    codec::encode(words, w);
    tell(answer, said)
}

// The row whose bytes begin there; past the end of the slice stand zeros.
fn row_from(rows: &[u8], at: usize) -> Row
    requires { at < ROW_BYTES * ROWS }
    ensures { result ≡ row_from rows.now at }
{
    Row {
        from: bytes::load_word(rows, at),
        to: bytes::load_word(rows, at + 8),
        cell: bytes::load_word(rows, at + 16),
    }
}

// All rows. `array::from_fn` (tried) left open which row each of its calls gave.
#[tactic(auto, using(crate::proofs::Export::rows_are))]
fn rows_of(rows: &[u8]) -> [Row; ROWS]
    ensures { result ≡ rows_of rows.now }
{
    let mut table = classes::no_rows();
    for (i, row) in table.iter_mut().enumerate() {
        *row = row_from(rows, ROW_BYTES * i);
    }
    table
}

// A flag, as a host gives it; none of another number.
fn flag(number: usize) -> Option<bool>
    ensures { MatchOption result (leb number 1 ≡ false) (λ yes. (leb number 1 ≡ true) × (yes ≡ eqb number 1)) }
{
    match number {
        0 => Some(false),
        1 => Some(true),
        _ => None,
    }
}

// The parameters; none where a flag is off, or the last row is cut short: BadSetup.
pub(crate) fn params(g: Given, rows: &[u8]) -> Option<Params>
    ensures { MatchOption result ((flags_ok g && rows_ok rows.now) ≡ false) (λ p. ((flags_ok g && rows_ok rows.now) ≡ true) × (p ≡ params_of g rows.now)) }
{
    let offsets = flag(g.offsets)?;
    let unified = flag(g.unified)?;
    let eager = flag(g.eager)?;
    let len = rows.len();
    if len % ROW_BYTES != 0 {
        return None;
    }
    Some(Params {
        base: g.base,
        bytes: g.bytes,
        blocks: g.blocks,
        min: g.min,
        max: g.max,
        offsets,
        unified,
        lower: g.lower,
        eager,
        rows: rows_of(rows),
        count: len / ROW_BYTES,
    })
}

// Set-up, or any call after it. The answer's slice gets the numbers of the answer.
#[tactic(auto, unfolding(model::specs::Exports::called))]
pub fn export(
    g: Given,
    words: &mut [u8],
    states: &mut [u8],
    marks: &mut [u8],
    heap: &mut [u8],
    rows: &[u8],
    answer: &mut [u8],
    inner: Entry,
) -> usize
    ensures { gives result (lend_bytes words.new states.new marks.new heap.new answer.new) ≡ called g rows.now (lend_bytes words.old states.old marks.old heap.old answer.old) (inner_of inner) }
{
    match params(g, rows) {
        None => usize::from(Refusal::BadSetup),
        Some(p) => run(p, words, states, marks, heap, answer, inner),
    }
}

// The check of a class table, which is lent no space. The answer: 0 and 0 if the rows are accepted; 1 and the least bad count; 2 and the
// first unfit row.
#[tactic(auto, unfolding(model::specs::Exports::check_called))]
pub fn check(g: Given, rows: &[u8], answer: &mut [u8]) -> usize
    ensures { check_gives result answer.new ≡ check_called g rows.now answer.old }
{
    let Some(p) = params(g, rows) else {
        return usize::from(Refusal::BadSetup);
    };
    let Some(slot) = answer.as_mut_array() else {
        return usize::from(Refusal::BadSetup);
    };
    tell(slot, calls::check_classes(p))
}
