// The lines of a trace: where each begins and ends, and what it asks.
ghost use Rattle.std.specs.Prelude.{◌≡◌, [], length, get_or, take};
ghost use Rattle.std.specs.Iterator.{YieldsFirstRef, at_most};
ghost use Rattle.model.specs.Text.{lines_from};
ghost use Rattle.model.specs.Answers.{call_of};
ghost use Rattle.model.specs.Census.{pieces, space, line_of, unread};
ghost use Rattle.trace.specs.Number.{number_of};
ghost use Rattle.trace.specs.Line.{words_of, line_for, asked, mark_asked, alloc_asked, one_number, offered};
ghost use Rattle.trace.specs.Lines.{next_line};

use crate::{LINES, TRACE_BYTES, line_words, numbers};
use model::{Ask, Block, Request};

// A line of a trace, from its first byte to before its newline, with the place of the next. Places and no
// slices: what `next_line` promises is then one equation.
#[derive(Clone, Copy)]
pub struct Line {
    pub from: usize,
    pub to: usize,
    pub next: usize,
}

// What is read of a trace; "the rest is unread".
#[tactic(auto, using(std::proofs::lemmas::List::take_min))]
pub fn read_part(s: &[u8]) -> &[u8]
    ensures { result.now ≡ take 16384 s.now }
{
    &s[..TRACE_BYTES.min(s.len())]
}

// The line that begins at `at`. No line begins where nothing follows.
#[tactic(auto, using(crate::proofs::LinesLaws::next_end, crate::proofs::LinesLaws::next_more, crate::proofs::LinesLaws::next_last))]
pub fn next_line(s: &[u8], at: usize) -> Option<Line>
    ensures { result ≡ next_line s.now at }
{
    let len = s.len();
    if len <= at {
        return None;
    }
    let to = line_words::piece_end(s, b'\n', at);
    let next = if to < len { to + 1 } else { to };
    Some(Line { from: at, to, next })
}

// The lines of what is left of a trace, one after the other.
#[derive(Drop)]
pub struct LinesLeft<'a> {
    rest: &'a [u8],
}

impl<'a> LinesLeft<'a> {
    pub fn of(s: &'a [u8]) -> LinesLeft<'a>
        ensures { result.rest.now ≡ s.now }
    {
        LinesLeft { rest: s }
    }
}

impl<'a> Iterator for LinesLeft<'a> {
    type Item = &'a [u8];

    ghost next_gives = { YieldsFirstRef (λ s. lines_from s.rest.now 0) };

    ghost remaining = { λ s. at_most (length s.rest.now) };

    fn next(&mut self) -> Option<&'a [u8]> {
        let line = next_line(self.rest, 0)?;
        let bytes = &self.rest[line.from..line.to];
        self.rest = &self.rest[line.next..];
        Some(bytes)
    }
}

// Whether a trace has a rest that is unread. Lines are looked at up to the first that is too many.
pub fn unread(s: &[u8]) -> bool
    ensures { result ≡ unread s.now }
{
    TRACE_BYTES < s.len() || LinesLeft::of(read_part(s)).nth(LINES).is_some()
}

fn number_at(s: &[u8], k: usize) -> Option<usize>
    ensures { result ≡ number_of (get_or (words_of s.now) k []) }
{
    numbers::parse(line_words::word(s, k))
}

// The number of a line of two words.
#[tactic(auto, unfolding(crate::specs::Line::one_number))]
fn one_number(s: &[u8]) -> Option<usize>
    ensures { result ≡ one_number (words_of s.now) }
{
    if line_words::count(s) == 2 {
        return number_at(s, 1);
    }
    None
}

// What a line asks that is its letter alone.
fn alone(s: &[u8], ask: Ask) -> Option<Ask>
    ensures { line_for result ≡ asked 1 (words_of s.now) (call_of ask) }
{
    if line_words::count(s) == 1 {
        return Some(ask);
    }
    None
}

fn ask_mark(s: &[u8]) -> Option<Ask>
    ensures { line_for result ≡ mark_asked (words_of s.now) }
{
    if line_words::count(s) != 3 {
        return None;
    }
    let place = number_at(s, 1)?;
    let block = number_at(s, 2)?;
    Some(Ask::Mark { place, block })
}

// The offer that a word names: none by `-`, or a block.
fn offer(w: &[u8]) -> Option<Option<Block>>
    ensures { result ≡ offered w.now }
{
    if line_words::letter(w) == Some(b'-') {
        return Some(None);
    }
    let block = numbers::parse(w)?;
    Some(Some(Block(block)))
}

fn ask_alloc(s: &[u8]) -> Option<Ask>
    ensures { line_for result ≡ alloc_asked (words_of s.now) }
{
    if line_words::count(s) != 6 {
        return None;
    }
    let holder = number_at(s, 1)?;
    let size = number_at(s, 2)?;
    let align = number_at(s, 3)?;
    let offset = number_at(s, 4)?;
    let offer = offer(line_words::word(s, 5))?;
    Some(Ask::Alloc {
        holder,
        request: Request {
            size,
            align,
            offset,
            offer,
        },
    })
}

// What a line asks; nothing, if it has another form. A match: each letter is another call with other arguments, so that a table of
// functions would say no less.
pub fn parse(s: &[u8]) -> Option<Ask>
    ensures { line_for result ≡ line_of (pieces space s.now) }
{
    let letter = line_words::letter(line_words::word(s, 0))?;
    match letter {
        b'b' => Some(Ask::Bind(one_number(s)?)),
        b'd' => Some(Ask::Destroy(one_number(s)?)),
        b'a' => ask_alloc(s),
        b'p' => alone(s, Ask::Prepare),
        b'm' => ask_mark(s),
        b'r' => Some(Ask::Release(one_number(s)?)),
        b's' => alone(s, Ask::SharedRelease),
        _ => None,
    }
}
