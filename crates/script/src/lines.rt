// Reading: a script of any length, a line at a time.
use arrayvec::ArrayVec;
use std::io;
use std::io::{Read, Stderr, Stdin};
use std::ops::Range;

// The longest line of any form is a `K` of 131,072 digits. One that fills so many bytes is of no form, so the rest of it may go.
const LINE_BYTES: usize = 131075;

const INPUT_BYTES: usize = 65536;

// Standard input, where a read that fails is told, and the line that was read last. No `BufReader`: its buffer comes from the heap,
// so more of C's functions would be assumed.
#[derive(Drop)]
pub(crate) struct Lines {
    input: Stdin,
    errors: Stderr,
    bytes: [u8; INPUT_BYTES],
    // which of the bytes are still to be looked at
    waiting: Range<usize>,
    // whether the input ended behind the line
    last: bool,
    line: ArrayVec<u8, LINE_BYTES>,
}

impl Lines {
    // Nothing is read yet.
    pub(crate) fn new(input: Stdin, errors: Stderr) -> Lines {
        Lines {
            input,
            errors,
            bytes: [0; INPUT_BYTES],
            waiting: 0..0,
            last: false,
            line: ArrayVec::new(),
        }
    }

    // Reads the next line, and says whether there is one: not at the end of the input, nor where a read fails.
    pub(crate) fn advance(&mut self) -> bool {
        match self.read() {
            Ok(is_line) => is_line,
            Err(_) => {
                let _ = self.errors.eprint("script: standard input can't be read\n");
                false
            }
        }
    }

    // The next byte, if there is one.
    fn next(&mut self) -> io::Result<Option<u8>> {
        if self.waiting.is_empty() {
            self.waiting = 0..self.input.read(&mut self.bytes)?;
        }
        let Some(at) = self.waiting.next() else {
            return Ok(None);
        };
        Ok(self.bytes.get(at).copied())
    }

    // Nothing says that the input ends: the turns are counted to a number that no run reaches.
    fn read(&mut self) -> io::Result<bool> {
        self.line.clear();
        self.last = false;
        for _ in 0..u64::MAX {
            match self.next()? {
                None => {
                    self.last = true;
                    break;
                }
                Some(b'\n') => return Ok(true),
                Some(byte) => {
                    let _ = self.line.try_push(byte);
                }
            }
        }
        Ok(!self.line.is_empty())
    }

    // Whether the input ended behind the line. A terminal that is asked again waits for more.
    pub(crate) fn is_last(&self) -> bool {
        self.last
    }

    // The line without its newline.
    fn line(&self) -> &[u8] {
        self.line.as_slice()
    }

    // Whether it is blank or a comment.
    pub(crate) fn is_skipped(&self) -> bool {
        matches!(self.line(), [] | [b'#', ..])
    }

    // The line, if it is text: no form has other bytes.
    pub(crate) fn text(&self) -> Option<&str> {
        str::from_utf8(self.line()).ok()
    }
}
