// The one place that performs a call, and the check of a class table: what is asked by value, and what is said as numbers. The
// exports and the programs that make calls go through here.
#![tactic(auto)]

ghost use Rattle.std.specs.Prelude.{◌≡◌};
ghost use Rattle.model.specs.Calls.{call, set_up, check_classes};
ghost use Rattle.model.specs.Answers.{call_of, said_of, outcome, outcome_of};
ghost use Rattle.model.specs.Promise.{lend};

use model::{Address, Ask, Block, Params, Said};
use native_ms::{classes, free_list_allocator, global};

// The check of a class table.
pub fn check_classes(p: Params) -> Said
    ensures { result ≡ said_of (check_classes p) }
{
    Said::from(classes::check_classes(p))
}

// Set-up.
pub fn set_up(
    p: Params,
    words: &mut [usize],
    states: &mut [u8],
    marks: &mut [u8],
    heap: &[u8],
) -> Said
    ensures { outcome result (lend words.new states.new marks.new heap.now) ≡ outcome_of (set_up p (lend words.old states.old marks.old heap.now)) }
{
    Said::from(global::set_up(p, words, states, marks, heap))
}

// Any other call, by the function that a Rattle caller calls for it: what README says of these then holds what exports and programs run.
// `run::perform` promises the same, and takes their steps itself.
pub fn perform(
    p: Params,
    words: &mut [usize],
    states: &mut [u8],
    marks: &mut [u8],
    heap: &mut [u8],
    ask: Ask,
) -> Said
    ensures { outcome result (lend words.new states.new marks.new heap.new) ≡ outcome_of (call p (lend words.old states.old marks.old heap.old) (call_of ask)) }
{
    match ask {
        Ask::Bind(h) => Said::from(global::bind(p, words, states, marks, heap, h)),
        Ask::Destroy(h) => Said::from(global::destroy(p, words, states, marks, heap, h)),
        Ask::Alloc { holder, request } => Said::from(free_list_allocator::alloc(
            p, words, states, marks, heap, holder, request,
        )),
        Ask::Prepare => Said::from(global::prepare(p, words, states, marks, heap)),
        Ask::Mark { place, block } => Said::from(global::mark(
            p,
            words,
            states,
            marks,
            heap,
            Address(place),
            Block(block),
        )),
        Ask::Release(h) => Said::from(global::release(p, words, states, marks, heap, h)),
        Ask::SharedRelease => Said::from(global::shared_release(p, words, states, marks, heap)),
    }
}
