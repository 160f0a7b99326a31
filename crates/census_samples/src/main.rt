#![tactic(auto)]

// Traces with the listings that oracle/census/listing.py worked out from document 01, replayed: the library's listing of each
// must have the same bytes. Standard input (made by oracle/census/traces.py) has for each a head of 47 bytes, its lengths and
// its name, then the trace and the listing.
ghost use Rattle.std.specs.Prelude.{◌+◌, ◌<◌, ◌≤◌, length};

use std::fmt;
use std::io::{self, Stdin};

// A head: two numbers of six digits, each with a space behind it, and a name of 32 bytes with a newline behind it.
const HEAD: usize = 47;

const TRACE: usize = 20000;

const MOST: usize = 1000;

// Why a run stops before its samples end.
#[derive(Clone, Copy)]
enum Stop {
    Unread,
    Cut,
    Unwritten,
}

impl fmt::Display for Stop {
    fn fmt<W: fmt::Write>(&self, f: &mut fmt::Formatter<W>) -> fmt::Result {
        f.write_str(match self {
            Stop::Unread => "standard input can't be read",
            Stop::Cut => "a sample is cut off or too long",
            Stop::Unwritten => "standard output can't be written",
        })
    }
}

impl From<streams::Cut> for Stop {
    fn from(_: streams::Cut) -> Stop {
        Stop::Unread
    }
}

// A sample as it is read, and the listing that is made of its trace.
#[derive(Drop)]
struct Sample {
    head: [u8; HEAD],
    input: [u8; TRACE],
    wanted: [u8; trace::LISTING_BYTES],
    out: [u8; trace::LISTING_BYTES],
}

// What a byte says as a digit: its low four bits, and of these the last decimal digit. So each byte is one.
fn digit(byte: u8) -> usize
    ensures { result < 10 }
{
    usize::from(byte % 16 % 10)
}

// Three digits from `at` on, and six.
fn three(head: &[u8], at: usize) -> usize
    requires { at + 3 ≤ length head.now }
    ensures { result < 1000 }
{
    100 * digit(head[at]) + 10 * digit(head[at + 1]) + digit(head[at + 2])
}

fn number(head: &[u8], at: usize) -> usize
    requires { at + 6 ≤ length head.now }
    ensures { result < 1000000 }
{
    1000 * three(head, at) + three(head, at + 3)
}

fn name(head: &[u8; HEAD]) -> &[u8] {
    &head[14..46]
}

// A line of standard output.
fn tell(rt: &impl Print, name: &[u8], as_it_must: bool) -> io::Result<()> {
    rt.write_all(name)?;
    if as_it_must {
        return rt.write_all(b" as 01 says\n");
    }
    rt.write_all(b" DIFFERS\n")
}

// Reads n bytes into the buffer, which must come and fit. What is too long is told behind a read, so that one that fails is told first.
fn fill<'a>(from: Stdin, buf: &'a mut [u8], n: usize) -> Result<&'a [u8], Stop> {
    let room = n.min(buf.len());
    let part = &mut buf[..room];
    if streams::read_input(from, part)? < n {
        return Err(Stop::Cut);
    }
    Ok(part)
}

// Reads the next sample's head. The answer is whether there is one.
fn next_head(from: Stdin, head: &mut [u8; HEAD]) -> Result<bool, Stop> {
    let read = streams::read_input(from, head)?;
    if 0 < read && read < HEAD {
        return Err(Stop::Cut);
    }
    Ok(0 < read)
}

// One trace: its listing is made, and held to the one that was read.
fn compare(
    rt: &impl Print,
    name: &[u8],
    input: &[u8],
    wanted: &[u8],
    out: &mut [u8; trace::LISTING_BYTES],
) -> Result<(), Stop> {
    let n = trace::whole_listing(input, out);
    let as_it_must = check::same(&out[..n], wanted);
    tell(rt, name, as_it_must).map_err(|_| Stop::Unwritten)
}

// One sample more. The answer is whether there was one.
fn replay(rt: &impl Print, from: Stdin, sample: &mut Sample) -> Result<bool, Stop> {
    if !next_head(from, &mut sample.head)? {
        return Ok(false);
    }
    let input = fill(from, &mut sample.input, number(&sample.head, 0))?;
    let wanted = fill(from, &mut sample.wanted, number(&sample.head, 7))?;
    compare(rt, name(&sample.head), input, wanted, &mut sample.out)?;
    Ok(true)
}

fn replay_all(rt: &impl Print, from: Stdin, sample: &mut Sample) -> Result<(), Stop> {
    for _ in 0..MOST {
        if !replay(rt, from, sample)? {
            return Ok(());
        }
    }
    Ok(())
}

fn main(rt: HostRuntime) {
    let mut sample = Sample {
        head: [0; HEAD],
        input: [0; TRACE],
        wanted: [0; trace::LISTING_BYTES],
        out: [0; trace::LISTING_BYTES],
    };
    if let Err(stop) = replay_all(&rt, rt.stdin(), &mut sample) {
        let _ = eprintln!(rt; "census_samples: {stop}");
    }
}
