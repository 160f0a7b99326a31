// A trace's lines, run one after the other: each makes the call that it asks for, on the space of the census.
ghost use Rattle.std.specs.Prelude.{◌≡◌, take};
ghost use Rattle.model.specs.Census.{lines_of, run_lines};
ghost use Rattle.model.specs.Text.{lines_from};
ghost use Rattle.trace.specs.Line.{line_for};
ghost use Rattle.trace.specs.Run.{lent_in, LineRan, TraceRan};

use crate::lines::{self, LinesLeft};
use crate::{HEAP, LINES, MARKS, WORDS};
use arrayvec::ArrayVec;
use listing::print::Refused;
use listing::{Standing, space};
use model::{Ask, Refusal};

// What is lent to the calls: as much as the census's space takes.
// The programs that replay own theirs, of other lengths or as bytes: what these structs share is the names of four fields.
#[derive(Drop)]
pub(crate) struct Buffers {
    pub words: [usize; WORDS],
    pub states: [u8; space::BLOCKS],
    pub marks: [u8; MARKS],
    pub heap: [u8; HEAP],
}

impl Buffers {
    pub(crate) fn standing(&self) -> Standing<'_>
        ensures words { result.words.now ≡ self.now.words }
        ensures states { result.states.now ≡ self.now.states }
        ensures marks { result.marks.now ≡ self.now.marks }
        ensures heap { result.heap.now ≡ self.now.heap }
    {
        Standing {
            words: &self.words,
            states: &self.states,
            marks: &self.marks,
            heap: &self.heap,
        }
    }

    // Makes the call that a line asks for. If it is refused, the answer is the number that the listing prints: `perform` gives it, so that a
    // Refusal would be made of it and unmade at once.
    fn run_line(&mut self, line: Option<Ask>) -> Option<usize>
        ensures { LineRan (lent_in self.old) (line_for line) result (lent_in self.new) }
    {
        let Some(ask) = line else {
            return Some(usize::from(Refusal::BadLine));
        };
        let said = calls::perform(
            space::params(),
            &mut self.words,
            &mut self.states,
            &mut self.marks,
            &mut self.heap,
            ask,
        );
        (said.number != 0).then_some(said.number)
    }

    // Runs the lines of what was read.
    fn run_read(&mut self, s: &[u8]) -> ArrayVec<Refused, LINES>
        ensures { TraceRan (run_lines 1 (take 256 (lines_from s.now 0)) (lent_in self.old)) result.items (lent_in self.new) }
    {
        let mut refused = ArrayVec::new();
        for (n, line) in LinesLeft::of(s).take(LINES).enumerate() {
            if let Some(number) = self.run_line(lines::parse(line)) {
                refused.push(Refused {
                    line: n + 1,
                    number,
                });
            }
        }
        refused
    }

    // Runs a trace's lines one after the other. The answer is those that were refused.
    pub(crate) fn run(&mut self, trace: &[u8]) -> ArrayVec<Refused, LINES>
        ensures { TraceRan (run_lines 1 (lines_of trace.now) (lent_in self.old)) result.items (lent_in self.new) }
    {
        self.run_read(lines::read_part(trace))
    }
}
