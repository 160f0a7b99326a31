#![tactic(auto)]

// Reads a trace on standard input and prints its listing. "At most 16,384 bytes and 256 lines; the rest is unread": a byte more is
// read only to say on standard error that there is a rest. A read or a write that fails is told there too.
use std::io::Stdin;
use trace::lines;

const INPUT_BYTES: usize = trace::TRACE_BYTES + 1;

fn say(rt: &impl Eprint, text: &str) {
    let _ = rt.eprint(text);
}

fn print(rt: &(impl Print + Eprint), bytes: &[u8], out: &mut [u8; trace::LISTING_BYTES]) {
    let n = trace::whole_listing(bytes, out);
    if rt.write_all(&out[..n]).is_err() {
        say(rt, "census: standard output can't be written\n");
    }
    if lines::unread(bytes) {
        say(
            rt,
            "census: the trace has more than 16,384 bytes or 256 lines; the rest is unread\n",
        );
    }
}

fn list(
    rt: &(impl Print + Eprint),
    from: Stdin,
    input: &mut [u8],
    out: &mut [u8; trace::LISTING_BYTES],
) {
    let Ok(n) = streams::read_input(from, input) else {
        say(rt, "census: standard input can't be read\n");
        return;
    };
    print(rt, &input[..n], out);
}

// Arrays of fixed room and no Vec: nothing of the census comes from the heap.
fn main(rt: HostRuntime) {
    let mut input = [0u8; INPUT_BYTES];
    let mut out = [0u8; trace::LISTING_BYTES];
    list(&rt, rt.stdin(), &mut input, &mut out);
}
