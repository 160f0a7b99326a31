// Numbers of a trace: decimal, below 2^64, with no needless zero.
ghost use Rattle.std.specs.Prelude.{◌≡◌};
ghost use Rattle.trace.specs.Number.{number_of};

// The library's reading would take a plus and needless zeros too.
pub(crate) fn parse(s: &[u8]) -> Option<usize>
    ensures { result ≡ number_of s.now }
{
    let first = *s.first()?;
    if first == b'+' {
        return None;
    }
    if first == b'0' && s.len() != 1 {
        return None;
    }
    let Ok(text) = str::from_utf8(s) else {
        return None;
    };
    text.parse().ok()
}
