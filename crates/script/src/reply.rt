// Answers, and what the library gives made into them.
use arrayvec::ArrayVec;
use exports::Entry;
use model::{Ask, Refusal, Said, Verdict};
use std::fmt;

// The longest slice that an export is lent for its answer.
pub(crate) const MOST_ANSWER: usize = 64;

// What an export gave: its number, and the slice for its answer.
#[derive(Drop)]
pub(crate) struct Sent {
    pub number: usize,
    pub answer: ArrayVec<u8, MOST_ANSWER>,
}

#[derive(Drop)]
pub(crate) enum Reply {
    Done,
    Nothing,
    One(usize),
    Three(usize, usize, usize),
    Four(usize, usize, usize, usize),
    Count(usize),
    Row(usize),
    Refused(usize),
    Exhausted(usize),
    Export(Sent),
}

impl Reply {
    // Whether a set-up that was answered so stands.
    pub(crate) fn is_done(&self) -> bool {
        matches!(self, Reply::Done | Reply::Export(Sent { number: 0, .. }))
    }

    // The answer to set-up or a call: so many values as its kind has.
    pub(crate) fn of_call(entry: Entry, said: Said) -> Reply {
        if said.number == usize::from(Refusal::Exhausted) {
            return Reply::Exhausted(said.fourth);
        }
        if said.number != 0 {
            return Reply::Refused(said.number);
        }
        match entry {
            Entry::SetUp | Entry::Call(Ask::Bind(_) | Ask::Prepare) => Reply::Done,
            Entry::Call(Ask::Destroy(_) | Ask::Mark { .. }) => Reply::One(said.first),
            Entry::Call(Ask::Release(_) | Ask::SharedRelease) => {
                Reply::Three(said.first, said.second, said.third)
            }
            Entry::Call(Ask::Alloc { .. }) => {
                Reply::Four(said.first, said.second, said.third, said.fourth)
            }
        }
    }
}

impl From<Refusal> for Reply {
    fn from(refusal: Refusal) -> Reply {
        Reply::Refused(usize::from(refusal))
    }
}

impl From<Result<usize, Refusal>> for Reply {
    fn from(answer: Result<usize, Refusal>) -> Reply {
        match answer {
            Ok(n) => Reply::One(n),
            Err(refusal) => Reply::from(refusal),
        }
    }
}

impl From<Result<Verdict, Refusal>> for Reply {
    fn from(answer: Result<Verdict, Refusal>) -> Reply {
        match answer {
            Ok(Verdict::Accepted) => Reply::Done,
            Ok(Verdict::BadCount(n)) => Reply::Count(n),
            Ok(Verdict::BadRow(n)) => Reply::Row(n),
            Err(refusal) => Reply::from(refusal),
        }
    }
}

// Two digits for each byte.
#[derive(Clone, Copy)]
pub(crate) struct Hex<'a>(pub &'a [u8]);

// How many digits are written at once.
const DIGITS: usize = 128;

fn digits_of(byte: u8) -> [u8; 2] {
    let digits = b"0123456789abcdef";
    [
        digits[usize::from(byte / 16)],
        digits[usize::from(byte % 16)],
    ]
}

// The bytes' digits at the start of the buffer, as far as it has room.
fn put_digits(bytes: &[u8], digits: &mut [u8]) {
    for (byte, pair) in bytes.iter().zip(digits.as_chunks_mut::<2>().0) {
        *pair = digits_of(*byte);
    }
}

// Some bytes at a time: with `{:02x}` for each byte (tried) a run with dumps takes 1.7 times the instructions.
impl fmt::Display for Hex<'_> {
    fn fmt<W: fmt::Write>(&self, f: &mut fmt::Formatter<W>) -> fmt::Result {
        for bytes in self.0.chunks(DIGITS / 2) {
            let mut digits = [0; DIGITS];
            put_digits(bytes, &mut digits);
            let digits = digits.get(..2 * bytes.len()).ok_or(fmt::Error)?;
            f.write_str(str::from_utf8(digits).map_err(|_| fmt::Error)?)?;
        }
        Ok(())
    }
}

// `N HEX`, or `N -` for a slice of no bytes.
impl fmt::Display for Sent {
    fn fmt<W: fmt::Write>(&self, f: &mut fmt::Formatter<W>) -> fmt::Result {
        let number = self.number;
        match self.answer.as_slice() {
            [] => write!(f, "{number} -"),
            answer => write!(f, "{number} {}", Hex(answer)),
        }
    }
}

impl fmt::Display for Reply {
    fn fmt<W: fmt::Write>(&self, f: &mut fmt::Formatter<W>) -> fmt::Result {
        match self {
            Reply::Done => write!(f, "ok"),
            Reply::Nothing => write!(f, "ok -"),
            Reply::One(a) => write!(f, "ok {a}"),
            Reply::Three(a, b, c) => write!(f, "ok {a} {b} {c}"),
            Reply::Four(a, b, c, d) => write!(f, "ok {a} {b} {c} {d}"),
            Reply::Count(n) => write!(f, "ok count {n}"),
            Reply::Row(n) => write!(f, "ok row {n}"),
            Reply::Refused(number) => write!(f, "refused {number}"),
            Reply::Exhausted(swept) => {
                let number = usize::from(Refusal::Exhausted);
                write!(f, "refused {number} {swept}")
            }
            Reply::Export(sent) => write!(f, "{sent}"),
        }
    }
}
