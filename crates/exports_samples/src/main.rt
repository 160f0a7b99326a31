#![tactic(auto)]

// A trace's lines replayed through the exports, on the space of the census: for each line the number returned and the bytes of the
// slice for the answer, which are 0xA5 before it. What must be printed was worked out from document 01 by another program
// (sample.py). No rows are lent: the classes are document 01's.
use exports::call::ANSWER_BYTES;
use exports::{Entry, call};
use model::{Ask, BLOCK_TABLES, Given, HEAD_WORDS};
use std::io::{Result, Stdin};
use trace::lines::{self, LinesLeft};

const BLOCKS: usize = 4;

const WORDS_LEN: usize = 8 * (HEAD_WORDS + BLOCK_TABLES * BLOCKS);

const MARKS: usize = HEAP / 64;

const HEAP: usize = 16384;

// What is read of a trace.
const TRACE: usize = 16384;

const MOST_LINES: usize = 256;

// What is lent to a call.
#[derive(Drop)]
struct Space {
    words: [u8; WORDS_LEN],
    states: [u8; BLOCKS],
    marks: [u8; MARKS],
    heap: [u8; HEAP],
}

// A call through the exports: on this space, with this slice for the answer.
fn make(space: &mut Space, answer: &mut [u8], entry: Entry) -> usize {
    call::export(
        Given::from(listing::space::params()),
        &mut space.words,
        &mut space.states,
        &mut space.marks,
        &mut space.heap,
        b"",
        answer,
        entry,
    )
}

// Prints the number and the slice.
fn tell(rt: &impl Print, number: usize, answer: &[u8; ANSWER_BYTES]) -> Result<()> {
    print!(rt; "{number} ")?;
    for byte in answer {
        print!(rt; "{byte:02x}")?;
    }
    println!(rt)
}

fn tell_set_up(rt: &impl Print, space: &mut Space) -> Result<()> {
    let mut answer = [0xA5u8; ANSWER_BYTES];
    let number = make(space, &mut answer, Entry::SetUp);
    tell(rt, number, &answer)
}

fn tell_line(rt: &impl Print, space: &mut Space, line: Option<Ask>) -> Result<()> {
    let Some(ask) = line else {
        return println!(rt; "bad");
    };
    let mut answer = [0xA5u8; ANSWER_BYTES];
    let number = make(space, &mut answer, Entry::Call(ask).told());
    tell(rt, number, &answer)
}

fn replay(rt: &impl Print, s: &[u8], space: &mut Space) -> Result<()> {
    tell_set_up(rt, space)?;
    for line in LinesLeft::of(s).take(MOST_LINES) {
        tell_line(rt, space, lines::parse(line))?;
    }
    Ok(())
}

fn read_and_replay(rt: &(impl Print + Eprint), from: Stdin, input: &mut [u8], space: &mut Space) {
    let Ok(n) = streams::read_input(from, input) else {
        let _ = rt.eprint("exports_samples: standard input can't be read\n");
        return;
    };
    if replay(rt, &input[..n], space).is_err() {
        let _ = rt.eprint("exports_samples: standard output can't be written\n");
    }
}

fn main(rt: HostRuntime) {
    let mut input = [0u8; TRACE];
    let mut space = Space {
        words: [0xA5u8; WORDS_LEN],
        states: [0xA5u8; BLOCKS],
        marks: [0xA5u8; MARKS],
        heap: [0xA5u8; HEAP],
    };
    read_and_replay(&rt, rt.stdin(), &mut input, &mut space);
}
