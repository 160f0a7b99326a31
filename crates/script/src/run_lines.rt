// `z n`: the next n lines, made by one call of `run`.
use crate::lines::Lines;
use crate::numbers::Words;
use crate::out::Out;
use crate::reply::Reply;
use crate::space::{Lent, first};
use crate::{Stop, asks, numbers};
use arrayvec::ArrayVec;
use exports::Entry;
use exports::row::CALL_WORDS;
use model::{ANSWER_WORDS, Ask, Params, Said};
use native_ms::run;
use std::io;
use std::io::Write;

// The most calls of a row.
const MOST_CALLS: usize = 64;

type Answers = ArrayVec<[usize; ANSWER_WORDS], MOST_CALLS>;

// How many calls a line asks for.
pub(crate) fn asked(rest: &str) -> Option<usize> {
    let [count] = Words::new(rest)?.all::<1>()?;
    matches!(count, 1..=MOST_CALLS).then_some(count)
}

// The call of the next line. Blank lines and comments are none.
fn next_ask(lines: &mut Lines) -> Option<Ask> {
    if !lines.advance() {
        return None;
    }
    let (letter, rest) = numbers::letter(lines.text()?)?;
    asks::ask(letter, Words::new(rest)?)
}

// Fills the row from the next lines, if each is a call.
fn read_row(lines: &mut Lines, row: &mut [Ask]) -> Option<()> {
    for ask in row {
        *ask = next_ask(lines)?;
    }
    Some(())
}

// Makes the calls, and gives their answers, if they could be made.
fn make(p: &Params, row: &[Ask], lent: &mut Lent) -> Option<Answers> {
    let mut calls = ArrayVec::<[usize; CALL_WORDS], MOST_CALLS>::new();
    let mut answers = Answers::new();
    for ask in row {
        calls.try_push(asks::numbers(*ask)).ok()?;
        answers.try_push([0; ANSWER_WORDS]).ok()?;
    }
    let said = run::run(
        *p,
        calls.as_slice().as_flattened(),
        answers.as_mut_slice().as_flattened_mut(),
        lent.words,
        lent.states,
        lent.marks,
        lent.heap,
    );
    said.ok()?;
    Some(answers)
}

// `ok`, and each answer as the single call would give it.
fn tell(row: &[Ask], answers: &Answers, out: &mut Out) -> io::Result<()> {
    writeln!(out, "ok")?;
    for (ask, answer) in row.iter().zip(answers.as_slice()) {
        let reply = Reply::of_call(Entry::Call(*ask), Said::from(*answer));
        writeln!(out, "{reply}")?;
    }
    Ok(())
}

// Reads so many calls, makes them and prints their answers. Room for the row, made by the caller and passed as a slice (tried), was made for
// every line: a run took 1.06 times the instructions.
pub(crate) fn run_row(
    p: &Params,
    count: usize,
    lines: &mut Lines,
    lent: &mut Lent,
    out: &mut Out,
) -> Result<(), Stop> {
    let mut calls = [Ask::Prepare; MOST_CALLS];
    let row = first(&mut calls, count);
    read_row(lines, row).ok_or(Stop::Bad)?;
    let answers = make(p, row, lent).ok_or(Stop::Bad)?;
    tell(row, &answers, out)?;
    Ok(())
}
