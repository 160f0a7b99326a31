// A run of many calls after one check: the calls come as words, and are made one after the other as they would be singly. What is
// lent is tested once, and each call then does its own work alone: calls keep tables sound.
ghost use Rattle.std.specs.Prelude.{◌≡◌, ◌+◌, ◌*◌, ◌≤◌, length, Ok};
ghost use Rattle.model.specs.Memory.{overwrite};
ghost use Rattle.model.specs.Calls.{call};
ghost use Rattle.model.specs.Answers.{reply_of, call_of, outcome, outcome_of};
ghost use Rattle.model.specs.Exports.{offered_by};
ghost use Rattle.model.specs.RunCalls.{answer_words, call_count, call_at, made, said_words, run_from, run_result, run_calls};
ghost use Rattle.model.specs.Promise.{lend};
ghost use Rattle.native_ms.specs.Checked.{lent_tests};
ghost use Rattle.native_ms.specs.RunLoop.{entry_call, Tested, ran, laid};

use crate::address::Space;
use crate::{checks, free_list_allocator, global};
use model::{ANSWER_WORDS, Address, Ask, Block, Params, Refusal, Request, Said};

// A call's words: its kind, which is a number of 02 since rows come from C, and its arguments in document 01's order.
const CALL_WORDS: usize = 6;

// 2^64 − 1 offers none: a row of `run` is words, and C has numbers alone.
pub const NO_OFFER: usize = 18446744073709551615;

// ---- reading

// The offer that a number names.
pub fn offered(n: usize) -> Option<Block>
    ensures { result ≡ offered_by n }
{
    if n == NO_OFFER {
        return None;
    }
    Some(Block(n))
}

// What the words of a call ask; none of another kind.
fn entry_of(call: &[usize; CALL_WORDS]) -> Option<Ask>
    ensures { entry_call result ≡ call_at call.now 0 }
{
    let [kind, first, second, align, offset, offer] = *call;
    match kind {
        1 => Some(Ask::Bind(first)),
        2 => Some(Ask::Destroy(first)),
        3 => Some(Ask::Alloc {
            holder: first,
            request: Request {
                size: second,
                align,
                offset,
                offer: offered(offer),
            },
        }),
        4 => Some(Ask::Prepare),
        5 => Some(Ask::Mark {
            place: first,
            block: second,
        }),
        6 => Some(Ask::Release(first)),
        7 => Some(Ask::SharedRelease),
        _ => None,
    }
}

// ---- one call

// On what passed the first tests.
fn make(
    space: &Space,
    words: &mut [usize],
    states: &mut [u8],
    marks: &mut [u8],
    heap: &mut [u8],
    ask: Ask,
) -> Said
    requires { lent_tests space.now.p (lend words.old states.old marks.old heap.old) ≡ Ok tt }
    ensures { outcome result (lend words.new states.new marks.new heap.new) ≡ outcome_of (call space.now.p (lend words.old states.old marks.old heap.old) (call_of ask)) }
{
    match ask {
        Ask::Bind(h) => Said::from(global::do_bind(words, h)),
        Ask::Destroy(h) => Said::from(global::do_destroy(space, words, h)),
        Ask::Alloc { holder, request } => Said::from(free_list_allocator::do_alloc(
            space, words, states, marks, heap, holder, request,
        )),
        Ask::Prepare => Said::from(global::do_prepare(words, states, marks)),
        Ask::Mark { place, block } => Said::from(global::do_mark(
            space,
            words,
            states,
            marks,
            Address(place),
            Block(block),
        )),
        Ask::Release(h) => Said::from(global::do_release(space, words, states, marks, heap, h)),
        Ask::SharedRelease => Said::from(global::do_shared_release(
            space, words, states, marks, heap,
        )),
    }
}

// An entry: its call, if the first tests passed, and else their refusal; or 11, which changes nothing.
fn make_entry(
    p: &Params,
    words: &mut [usize],
    states: &mut [u8],
    marks: &mut [u8],
    heap: &mut [u8],
    tested: Result<&Space, Refusal>,
    entry: Option<Ask>,
) -> Said
    requires { Tested tested (λ passed. passed.now.p) p.now (lend words.old states.old marks.old heap.old) }
    ensures { outcome result (lend words.new states.new marks.new heap.new) ≡ outcome_of (made p.now (lend words.old states.old marks.old heap.old) (entry_call entry)) }
{
    match entry {
        None => Said::from(Refusal::BadLine),
        Some(ask) => match tested {
            Err(refusal) => Said::from(refusal),
            Ok(space) => make(space, words, states, marks, heap, ask),
        },
    }
}

// Any call but set-up.
pub fn perform(
    p: Params,
    words: &mut [usize],
    states: &mut [u8],
    marks: &mut [u8],
    heap: &mut [u8],
    ask: Ask,
) -> Said
    ensures { outcome result (lend words.new states.new marks.new heap.new) ≡ outcome_of (call p (lend words.old states.old marks.old heap.old) (call_of ask)) }
{
    match checks::check_lent(p, words, states, marks, heap) {
        Err(why) => Said::from(why),
        Ok(()) => make(&Space { p }, words, states, marks, heap, ask),
    }
}

// ---- the list

// Word by word: copied in as an array (tried), they took a run of allocs 5 % longer.
fn put_said(answers: &mut [usize], at: usize, said: Said)
    requires { at + answer_words ≤ length answers.old }
    ensures { answers.new ≡ overwrite at (said_words said) answers.old }
{
    answers[at] = said.number;
    answers[at + 1] = said.first;
    answers[at + 2] = said.second;
    answers[at + 3] = said.third;
    answers[at + 4] = said.fourth;
}

// All calls of the list: each on what the one before left, of which the first tests would say the same again. Answers are written by
// their place: over chunks of them (tried) `returns` stayed open, since it is not known what chunks that are lent for writing leave.
fn run_all(
    p: &Params,
    calls: &[usize],
    answers: &mut [usize],
    words: &mut [usize],
    states: &mut [u8],
    marks: &mut [u8],
    heap: &mut [u8],
    tested: Result<&Space, Refusal>,
)
    requires tested { Tested tested (λ passed. passed.now.p) p.now (lend words.old states.old marks.old heap.old) }
    requires room { length answers.old ≡ answer_words * call_count calls.now }
    ensures { ran answers.new (lend words.new states.new marks.new heap.new) ≡ laid 0 answers.old (run_from (call_count calls.now) p.now (lend words.old states.old marks.old heap.old) calls.now 0) }
{
    let (rows, _) = calls.as_chunks::<CALL_WORDS>();
    for (i, row) in rows.iter().enumerate() {
        let entry = entry_of(row);
        let said = make_entry(p, words, states, marks, heap, tested, entry);
        put_said(answers, ANSWER_WORDS * i, said);
    }
}

// The calls of the list, six words each, and their answers, five words each. Lists of another length are BadSetup; what else is
// refused is told in the answers. What is lent is tested once.
pub fn run(
    p: Params,
    calls: &[usize],
    answers: &mut [usize],
    words: &mut [usize],
    states: &mut [u8],
    marks: &mut [u8],
    heap: &mut [u8],
) -> Result<(), Refusal>
    ensures { run_result (reply_of result) answers.new (lend words.new states.new marks.new heap.new) ≡ run_calls p (lend words.old states.old marks.old heap.old) calls.now answers.old }
{
    let length = calls.len();
    let room = answers.len();
    if length % CALL_WORDS != 0 {
        return Err(Refusal::BadSetup);
    }
    if room != ANSWER_WORDS * (length / CALL_WORDS) {
        return Err(Refusal::BadSetup);
    }
    match checks::check_lent(p, words, states, marks, heap) {
        Err(refusal) => run_all(&p, calls, answers, words, states, marks, heap, Err(refusal)),
        Ok(()) => {
            let space = Space { p };
            run_all(&p, calls, answers, words, states, marks, heap, Ok(&space));
        }
    }
    Ok(())
}
