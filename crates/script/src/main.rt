#![tactic(auto)]

// The port's driver of differential runs: reads a script on standard input, makes its calls on the library, and prints the
// answers. A line that is bad ends the run.
mod asks;
mod direct;
mod driver;
mod dump;
mod fill;
mod leaves;
mod lines;
mod loads;
mod numbers;
mod out;
mod records;
mod reply;
mod rows;
mod run_lines;
mod setup;
mod space;
mod through;

use driver::Driver;
use lines::Lines;
use out::Out;
use space::{BLOCKS, HEAP, MARKS, Memory, WORDS};
use std::io;
use std::io::Write;

// Why a script ends before its input does: at a bad line, or where the output can't be written.
#[derive(Drop)]
pub(crate) enum Stop {
    Bad,
    Lost(io::Error),
}

impl From<io::Error> for Stop {
    fn from(error: io::Error) -> Stop {
        Stop::Lost(error)
    }
}

// Hears the lines to the end, or to the first that is bad. Nothing says that the input ends: the turns are counted to a number
// that no run reaches.
fn hear_all(memory: &mut Memory, lines: &mut Lines, out: &mut Out) -> Result<(), Stop> {
    let mut driver = Driver::new(memory);
    for _ in 0..u64::MAX {
        if !lines.advance() {
            break;
        }
        driver.hear(lines, out)?;
        if lines.is_last() {
            break;
        }
    }
    Ok(())
}

fn run(memory: &mut Memory, lines: &mut Lines, out: &mut Out) -> io::Result<()> {
    match hear_all(memory, lines, out) {
        Ok(()) => {}
        Err(Stop::Bad) => out.write_all(b"bad\n")?,
        Err(Stop::Lost(error)) => return Err(error),
    }
    out.flush()
}

fn main(rt: HostRuntime) {
    let mut memory = Memory {
        words: [0; WORDS],
        states: [0; BLOCKS],
        marks: [0; MARKS],
        heap: [0; HEAP],
    };
    let mut lines = Lines::new(rt.stdin(), rt.stderr());
    let mut out = Out::new(rt.stdout());
    if run(&mut memory, &mut lines, &mut out).is_err() {
        let _ = rt.eprint("script: standard output can't be written\n");
    }
}
