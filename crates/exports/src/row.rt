// The export of `run`: a row of calls, with the tables decoded and encoded once for all of them. Calls and answers travel as words of 8
// bytes, as the tables do.
ghost use Rattle.std.specs.Prelude.{◌≡◌};
ghost use Rattle.model.specs.Exports.{lend_bytes, gives};
ghost use Rattle.model.specs.RunCalls.{run_exported, run_called};

use crate::{call, codec};
use model::{ANSWER_WORDS, Given, Params, Refusal, Said};
use native_ms::run;

// The words of a call: its kind and its arguments.
pub const CALL_WORDS: usize = 6;

// The words of a row of 1,024 calls, and of its answers.
const MOST_CALLS: usize = 1024;

const ROW_WORDS: usize = CALL_WORDS * MOST_CALLS;

const ROOM_WORDS: usize = ANSWER_WORDS * MOST_CALLS;

// The row between a decoding and an encoding back. `run` tests the lengths that these do not.
#[tactic(auto, using(crate::proofs::RowLaws::off_words, crate::proofs::RowLaws::off_answer, crate::proofs::RowLaws::off_calls))]
fn run_row(
    p: Params,
    words: &mut [u8],
    states: &mut [u8],
    marks: &mut [u8],
    heap: &mut [u8],
    answer: &mut [u8],
    calls: &[u8],
) -> usize
    ensures { gives result (lend_bytes words.new states.new marks.new heap.new answer.new) ≡ run_exported p (lend_bytes words.old states.old marks.old heap.old answer.old) calls.now }
{
    let mut tables = [0; call::MOST_WORDS];
    let mut row = [0; ROW_WORDS];
    let mut answers = [0; ROOM_WORDS];
    let Some(w) = codec::decode(words, &mut tables) else {
        return usize::from(Refusal::BadSetup);
    };
    let Some(a) = codec::decode(answer, &mut answers) else {
        return usize::from(Refusal::BadSetup);
    };
    let Some(row) = codec::decode(calls, &mut row) else {
        return usize::from(Refusal::BadSetup);
    };
    let done = run::run(p, row, a, w, states, marks, heap);
    codec::encode(words, w);
    codec::encode(answer, a);
    Said::from(done).number
}

// The answer: five words for each call, 0 or its refusal's number and its values; nothing is written where BadSetup is returned.
#[tactic(auto, unfolding(model::specs::RunCalls::run_called))]
pub fn export(
    g: Given,
    words: &mut [u8],
    states: &mut [u8],
    marks: &mut [u8],
    heap: &mut [u8],
    rows: &[u8],
    answer: &mut [u8],
    calls: &[u8],
) -> usize
    ensures { gives result (lend_bytes words.new states.new marks.new heap.new answer.new) ≡ run_called g rows.now (lend_bytes words.old states.old marks.old heap.old answer.old) calls.now }
{
    match call::params(g, rows) {
        None => usize::from(Refusal::BadSetup),
        Some(p) => run_row(p, words, states, marks, heap, answer, calls),
    }
}
