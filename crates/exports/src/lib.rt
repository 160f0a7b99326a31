// The calls for a host, on numbers and byte slices: the table words are decoded, the inner call is made, and they are encoded again. The
// crate exports_c gives each call to C under a name of its own; docs/HOST.md says how a host uses them.
//
// What is lent is handed on slice by slice, as in native_ms: where a struct of `&mut` was made for a call (tried there) the proof did not
// learn what the call left behind them.
#![tactic(auto)]

ghost use Rattle.std.specs.Prelude.{◌≡◌};
ghost use Rattle.model.specs.Answers.{outcome, outcome_of};
ghost use Rattle.model.specs.Promise.{lend};
ghost use Rattle.exports.specs.Entry.{inner_of, told};

use model::{Ask, Params, Request, Said};
use native_ms::run;

pub mod call;
pub mod codec;
pub mod row;

// What an export enters: set-up, or any other call. Not an Option of Ask: set-up is no lack of a call.
#[derive(Clone, Copy)]
pub enum Entry {
    SetUp,
    Call(Ask),
}

impl Entry {
    // Makes the inner call.
    #[tactic(auto, unfolding(crate::specs::Entry::inner_of))]
    pub fn enter(
        self,
        p: Params,
        words: &mut [usize],
        states: &mut [u8],
        marks: &mut [u8],
        heap: &mut [u8],
    ) -> Said
        ensures { outcome result (lend words.new states.new marks.new heap.new) ≡ outcome_of (inner_of self p (lend words.old states.old marks.old heap.old)) }
    {
        match self {
            Entry::SetUp => calls::set_up(p, words, states, marks, heap),
            Entry::Call(ask) => calls::perform(p, words, states, marks, heap, ask),
        }
    }

    // The entry as C tells it: an offer is a number there, of which 2^64 − 1 offers none.
    #[tactic(auto, unfolding(crate::specs::Entry::told, crate::specs::Entry::told_offer))]
    pub fn told(self) -> Entry
        ensures { result ≡ told self }
    {
        match self {
            Entry::Call(Ask::Alloc { holder, request }) => {
                let offer = request.offer.and_then(|block| run::offered(block.0));
                Entry::Call(Ask::Alloc {
                    holder,
                    request: Request { offer, ..request },
                })
            }
            other => other,
        }
    }
}
