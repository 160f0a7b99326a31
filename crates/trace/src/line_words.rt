// The words of a line: what stands before, between and behind single spaces.
ghost use Rattle.std.specs.Prelude.{◌≡◌, ◌==◌, [], length, get_or, drop, position};
ghost use Rattle.model.specs.Census.{pieces, space};
ghost use Rattle.model.specs.Text.{until, piece_end};
ghost use Rattle.trace.specs.Line.{letter_of};

fn first(s: &[u8], sep: u8) -> Option<usize>
    ensures { result ≡ position (λ x. x == sep) s.now }
{
    s.iter().position(|b| *b == sep)
}

// How many bytes stand before the first separator, or before the end.
fn until(s: &[u8], sep: u8) -> usize
    ensures { result ≡ until sep s.now }
{
    first(s, sep).unwrap_or(s.len())
}

// What stands from a place on.
fn from(s: &[u8], at: usize) -> &[u8]
    ensures { result.now ≡ drop at s.now }
{
    &s[at.min(s.len())..]
}

// Where the piece that begins at `at` ends: at the next separator, or with the bytes.
pub(crate) fn piece_end(s: &[u8], sep: u8, at: usize) -> usize
    ensures { result ≡ piece_end sep s.now at }
{
    at + until(from(s, at), sep)
}

pub(crate) fn count(s: &[u8]) -> usize
    ensures { result ≡ length (pieces space s.now) }
{
    s.split(|b| *b == b' ').count()
}

// The word k; blank if there are fewer.
pub(crate) fn word(s: &[u8], k: usize) -> &[u8]
    ensures { result.now ≡ get_or (pieces space s.now) k [] }
{
    s.split(|b| *b == b' ').nth(k).unwrap_or(&[])
}

// The letter that a word is; none if it has another length.
#[tactic(auto, unfolding(crate::specs::Line::letter_of))]
pub(crate) fn letter(w: &[u8]) -> Option<u8>
    ensures { result ≡ letter_of w.now }
{
    if w.len() == 1 { Some(w[0]) } else { None }
}
