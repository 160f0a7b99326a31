// The exports for C: eight hand on to the function of the crate exports that makes every call, with the parameters that they were given as
// numbers and with what they ask, one to the check of a class table and one to `run`. They are alike, since C asks for a function and its
// parameters for each call. docs/HOST.md says how a host uses them, c/native_ms.h how it declares them.
#![tactic(auto, unfolding(exports::specs::Entry::inner_of, model::specs::Answers::call_of))]

ghost use Rattle.std.specs.Prelude.{◌≡◌};
ghost use Rattle.model.specs.Calls.{set_up, bind, destroy, alloc, prepare, mark, release, shared_release};
ghost use Rattle.model.specs.Exports.{lend_bytes, gives, asks, given, called, check_gives, check_called, offered_by};
ghost use Rattle.model.specs.RunCalls.{run_called};

use exports::{Entry, call, row};
use model::{Ask, Given, Request};
use native_ms::run;

// The parameters as C gives them.
fn given(
    base: usize,
    bytes: usize,
    blocks: usize,
    min: usize,
    max: usize,
    offsets: usize,
    unified: usize,
    lower: i64,
    eager: usize,
) -> Given
    ensures { result ≡ given base bytes blocks min max offsets unified lower eager }
{
    Given {
        base,
        bytes,
        blocks,
        min,
        max,
        offsets,
        unified,
        lower,
        eager,
    }
}

// Set-up. The answer: no numbers.
#[unsafe(no_mangle)]
pub extern "C" fn native_ms_set_up(
    base: usize,
    bytes: usize,
    blocks: usize,
    min: usize,
    max: usize,
    offsets: usize,
    unified: usize,
    lower: i64,
    eager: usize,
    words: &mut [u8],
    states: &mut [u8],
    marks: &mut [u8],
    heap: &mut [u8],
    rows: &[u8],
    answer: &mut [u8],
) -> usize
    ensures { gives result (lend_bytes words.new states.new marks.new heap.new answer.new) ≡ called (given base bytes blocks min max offsets unified lower eager) rows.now (lend_bytes words.old states.old marks.old heap.old answer.old) set_up }
{
    let g = given(
        base, bytes, blocks, min, max, offsets, unified, lower, eager,
    );
    call::export(g, words, states, marks, heap, rows, answer, Entry::SetUp)
}

// Bind. The answer: no numbers.
#[unsafe(no_mangle)]
pub extern "C" fn native_ms_bind(
    base: usize,
    bytes: usize,
    blocks: usize,
    min: usize,
    max: usize,
    offsets: usize,
    unified: usize,
    lower: i64,
    eager: usize,
    words: &mut [u8],
    states: &mut [u8],
    marks: &mut [u8],
    heap: &mut [u8],
    rows: &[u8],
    answer: &mut [u8],
    holder: usize,
) -> usize
    ensures { gives result (lend_bytes words.new states.new marks.new heap.new answer.new) ≡ called (given base bytes blocks min max offsets unified lower eager) rows.now (lend_bytes words.old states.old marks.old heap.old answer.old) (asks (bind holder)) }
{
    let g = given(
        base, bytes, blocks, min, max, offsets, unified, lower, eager,
    );
    call::export(
        g,
        words,
        states,
        marks,
        heap,
        rows,
        answer,
        Entry::Call(Ask::Bind(holder)),
    )
}

// Destroy. The answer: blocks that went over to abandoned.
#[unsafe(no_mangle)]
pub extern "C" fn native_ms_destroy(
    base: usize,
    bytes: usize,
    blocks: usize,
    min: usize,
    max: usize,
    offsets: usize,
    unified: usize,
    lower: i64,
    eager: usize,
    words: &mut [u8],
    states: &mut [u8],
    marks: &mut [u8],
    heap: &mut [u8],
    rows: &[u8],
    answer: &mut [u8],
    holder: usize,
) -> usize
    ensures { gives result (lend_bytes words.new states.new marks.new heap.new answer.new) ≡ called (given base bytes blocks min max offsets unified lower eager) rows.now (lend_bytes words.old states.old marks.old heap.old answer.old) (asks (destroy holder)) }
{
    let g = given(
        base, bytes, blocks, min, max, offsets, unified, lower, eager,
    );
    call::export(
        g,
        words,
        states,
        marks,
        heap,
        rows,
        answer,
        Entry::Call(Ask::Destroy(holder)),
    )
}

// Alloc. The answer: address, cell size, whether the offer was used, blocks swept.
#[unsafe(no_mangle)]
pub extern "C" fn native_ms_alloc(
    base: usize,
    bytes: usize,
    blocks: usize,
    min: usize,
    max: usize,
    offsets: usize,
    unified: usize,
    lower: i64,
    eager: usize,
    words: &mut [u8],
    states: &mut [u8],
    marks: &mut [u8],
    heap: &mut [u8],
    rows: &[u8],
    answer: &mut [u8],
    holder: usize,
    size: usize,
    align: usize,
    offset: usize,
    offer: usize,
) -> usize
    ensures { gives result (lend_bytes words.new states.new marks.new heap.new answer.new) ≡ called (given base bytes blocks min max offsets unified lower eager) rows.now (lend_bytes words.old states.old marks.old heap.old answer.old) (asks (alloc holder size align offset (offered_by offer))) }
{
    let g = given(
        base, bytes, blocks, min, max, offsets, unified, lower, eager,
    );
    call::export(
        g,
        words,
        states,
        marks,
        heap,
        rows,
        answer,
        Entry::Call(Ask::Alloc {
            holder,
            request: Request {
                size,
                align,
                offset,
                offer: run::offered(offer),
            },
        }),
    )
}

// Prepare. The answer: no numbers.
#[unsafe(no_mangle)]
pub extern "C" fn native_ms_prepare(
    base: usize,
    bytes: usize,
    blocks: usize,
    min: usize,
    max: usize,
    offsets: usize,
    unified: usize,
    lower: i64,
    eager: usize,
    words: &mut [u8],
    states: &mut [u8],
    marks: &mut [u8],
    heap: &mut [u8],
    rows: &[u8],
    answer: &mut [u8],
) -> usize
    ensures { gives result (lend_bytes words.new states.new marks.new heap.new answer.new) ≡ called (given base bytes blocks min max offsets unified lower eager) rows.now (lend_bytes words.old states.old marks.old heap.old answer.old) (asks prepare) }
{
    let g = given(
        base, bytes, blocks, min, max, offsets, unified, lower, eager,
    );
    call::export(
        g,
        words,
        states,
        marks,
        heap,
        rows,
        answer,
        Entry::Call(Ask::Prepare),
    )
}

// Mark. The answer: whether it is new.
#[unsafe(no_mangle)]
pub extern "C" fn native_ms_mark(
    base: usize,
    bytes: usize,
    blocks: usize,
    min: usize,
    max: usize,
    offsets: usize,
    unified: usize,
    lower: i64,
    eager: usize,
    words: &mut [u8],
    states: &mut [u8],
    marks: &mut [u8],
    heap: &mut [u8],
    rows: &[u8],
    answer: &mut [u8],
    place: usize,
    block: usize,
) -> usize
    ensures { gives result (lend_bytes words.new states.new marks.new heap.new answer.new) ≡ called (given base bytes blocks min max offsets unified lower eager) rows.now (lend_bytes words.old states.old marks.old heap.old answer.old) (asks (mark place block)) }
{
    let g = given(
        base, bytes, blocks, min, max, offsets, unified, lower, eager,
    );
    call::export(
        g,
        words,
        states,
        marks,
        heap,
        rows,
        answer,
        Entry::Call(Ask::Mark { place, block }),
    )
}

// Release. The answer: blocks released, blocks merged.
#[unsafe(no_mangle)]
pub extern "C" fn native_ms_release(
    base: usize,
    bytes: usize,
    blocks: usize,
    min: usize,
    max: usize,
    offsets: usize,
    unified: usize,
    lower: i64,
    eager: usize,
    words: &mut [u8],
    states: &mut [u8],
    marks: &mut [u8],
    heap: &mut [u8],
    rows: &[u8],
    answer: &mut [u8],
    holder: usize,
) -> usize
    ensures { gives result (lend_bytes words.new states.new marks.new heap.new answer.new) ≡ called (given base bytes blocks min max offsets unified lower eager) rows.now (lend_bytes words.old states.old marks.old heap.old answer.old) (asks (release holder)) }
{
    let g = given(
        base, bytes, blocks, min, max, offsets, unified, lower, eager,
    );
    call::export(
        g,
        words,
        states,
        marks,
        heap,
        rows,
        answer,
        Entry::Call(Ask::Release(holder)),
    )
}

// Shared release. The answer: blocks released, blocks merged.
#[unsafe(no_mangle)]
pub extern "C" fn native_ms_shared_release(
    base: usize,
    bytes: usize,
    blocks: usize,
    min: usize,
    max: usize,
    offsets: usize,
    unified: usize,
    lower: i64,
    eager: usize,
    words: &mut [u8],
    states: &mut [u8],
    marks: &mut [u8],
    heap: &mut [u8],
    rows: &[u8],
    answer: &mut [u8],
) -> usize
    ensures { gives result (lend_bytes words.new states.new marks.new heap.new answer.new) ≡ called (given base bytes blocks min max offsets unified lower eager) rows.now (lend_bytes words.old states.old marks.old heap.old answer.old) (asks shared_release) }
{
    let g = given(
        base, bytes, blocks, min, max, offsets, unified, lower, eager,
    );
    call::export(
        g,
        words,
        states,
        marks,
        heap,
        rows,
        answer,
        Entry::Call(Ask::SharedRelease),
    )
}

// The check of a class table. The answer: 0 and 0 if the rows are accepted; 1 and the least bad count; 2 and the first unfit row.
#[unsafe(no_mangle)]
pub extern "C" fn native_ms_check_classes(
    base: usize,
    bytes: usize,
    blocks: usize,
    min: usize,
    max: usize,
    offsets: usize,
    unified: usize,
    lower: i64,
    eager: usize,
    rows: &[u8],
    answer: &mut [u8],
) -> usize
    ensures { check_gives result answer.new ≡ check_called (given base bytes blocks min max offsets unified lower eager) rows.now answer.old }
{
    let g = given(
        base, bytes, blocks, min, max, offsets, unified, lower, eager,
    );
    call::check(g, rows, answer)
}

// Run. The answer: five words for each call, 0 or its refusal's number and its values; nothing is written where BadSetup is returned.
#[unsafe(no_mangle)]
pub extern "C" fn native_ms_run(
    base: usize,
    bytes: usize,
    blocks: usize,
    min: usize,
    max: usize,
    offsets: usize,
    unified: usize,
    lower: i64,
    eager: usize,
    words: &mut [u8],
    states: &mut [u8],
    marks: &mut [u8],
    heap: &mut [u8],
    rows: &[u8],
    answer: &mut [u8],
    calls: &[u8],
) -> usize
    ensures { gives result (lend_bytes words.new states.new marks.new heap.new answer.new) ≡ run_called (given base bytes blocks min max offsets unified lower eager) rows.now (lend_bytes words.old states.old marks.old heap.old answer.old) calls.now }
{
    let g = given(
        base, bytes, blocks, min, max, offsets, unified, lower, eager,
    );
    row::export(g, words, states, marks, heap, rows, answer, calls)
}
