// A trace: its lines read, and run on the native mark-sweep space; with its listing, the work of the census program. specs/
// ties each piece to the model's Census.
#![tactic(auto)]

ghost use Rattle.model.specs.Census.{census};
ghost use Rattle.model.specs.Text.{Printed};
ghost use Rattle.model.specs.Text.{Listed, Whole};
ghost use Rattle.trace.specs.Census.{listed_from};
ghost use Rattle.trace.specs.Run.{lent_in};

use listing::space;
use native_ms::global;
use run::Buffers;

mod line_words;
pub mod lines;
mod numbers;
mod run;

// No listing is longer: `whole_listing` needs it.
pub const LISTING_BYTES: usize = 20000;

// "At most 16,384 bytes and 256 lines."
pub const TRACE_BYTES: usize = 16384;

pub const LINES: usize = 256;

// The space of the census: what its tables, its state and mark bytes and its heap take.
const WORDS: usize = 2986;

const MARKS: usize = 256;

const HEAP: usize = 16384;

// Sets up on what is lent, runs the trace and lists what stands then.
fn run_and_list(trace: &[u8], out: &mut [u8], buffers: &mut Buffers) -> usize
    ensures { Printed out.old out.new 0 result (listed_from (lent_in buffers.old) trace.now) }
{
    let _ = global::set_up(
        space::params(),
        &mut buffers.words,
        &mut buffers.states,
        &mut buffers.marks,
        &buffers.heap,
    );
    let refused = buffers.run(trace);
    listing::listing(out, refused.as_slice(), &buffers.standing())
}

// The listing of a trace, as many of its bytes as the buffer holds. The answer is how many.
pub fn census(trace: &[u8], out: &mut [u8]) -> usize
    ensures { Listed out.old out.new result (census trace.now) }
{
    let mut buffers = Buffers {
        words: [0; WORDS],
        states: [0; space::BLOCKS],
        marks: [0; MARKS],
        heap: [0; HEAP],
    };
    run_and_list(trace, out, &mut buffers)
}

// The same in a buffer that holds every listing.
pub fn whole_listing(trace: &[u8], out: &mut [u8; LISTING_BYTES]) -> usize
    ensures { Whole out.old out.new result (census trace.now) }
{
    census(trace, out)
}
