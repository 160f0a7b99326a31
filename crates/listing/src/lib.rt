// The listing of the census program: from what stands after a trace's lines to the bytes that are printed. specs/ ties each
// piece to the model's Census.
#![tactic(auto)]

ghost use Rattle.model.specs.Text.{Printed};
ghost use Rattle.listing.specs.Listing.{listing_text};

use print::{Page, Refused};

mod chain;
pub mod print;
mod sections;
pub mod space;

// What stands after a trace's lines: the words, the blocks' states, the marks and the heap.
#[derive(Clone, Copy)]
pub struct Standing<'a> {
    pub words: &'a [usize],
    pub states: &'a [u8],
    pub marks: &'a [u8],
    pub heap: &'a [u8],
}

// The three sections of what stands after a trace's lines. The answer is how many bytes were put.
pub fn listing(out: &mut [u8], refused: &[Refused], standing: &Standing<'_>) -> usize
    ensures { Printed out.old out.new 0 result (listing_text refused.now standing.now.words.now standing.now.states.now standing.now.marks.now standing.now.heap.now) }
{
    let mut page = Page { bytes: out, at: 0 };
    page.refused_section(refused);
    standing.blocks_section(&mut page);
    standing.free_section(&mut page);
    page.at
}
