#![tactic(auto)]

// Standard input, with a read that fails told from the end of the input.
ghost use Rattle.std.specs.Prelude.{MatchResult};
ghost use Rattle.std.specs.Counts.{IsPrefixLen};

use std::io::{Read, Stdin};

// A read failed, behind so many bytes that were read.
#[derive(Clone, Copy, Debug, PartialEq, Eq)]
pub struct Cut {
    pub len: usize,
}

// Reads until the buffer is full, the input ends or a read fails. The answer is how many bytes were read. No contract can say
// which bytes a read puts there.
pub fn read_input(from: Stdin, buf: &mut [u8]) -> Result<usize, Cut>
    ensures { MatchResult result (λ n. IsPrefixLen n buf.new) (λ cut. IsPrefixLen cut.len buf.new) }
{
    let mut input = from;
    let mut n: usize = 0;
    // a `while`: n grows by what each read gives, so that a `for` would have nothing to count
    while n < buf.len() {
        let Ok(more) = input.read(&mut buf[n..]) else {
            return Err(Cut { len: n });
        };
        if more == 0 {
            return Ok(n);
        }
        n += more;
    }
    Ok(n)
}
