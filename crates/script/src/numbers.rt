// The words of a line: decimal numbers, each after one space.

// The words that are still to be read; none behind the last.
#[derive(Clone, Copy)]
pub(crate) struct Words<'a> {
    left: Option<&'a str>,
}

// Whether a number has a digit first and no needless zero. `parse` takes those, and a plus sign.
fn is_plain(word: &str) -> bool {
    matches!(word.as_bytes(), [b'0'] | [b'1'..=b'9', ..])
}

// A number below 2^64.
pub(crate) fn number(word: &str) -> Option<usize> {
    if !is_plain(word) {
        return None;
    }
    word.parse().ok()
}

// The same, or a number below 0.
fn signed(word: &str) -> Option<i64> {
    let digits = word.strip_prefix('-').unwrap_or(word);
    if !is_plain(digits) || word == "-0" {
        return None;
    }
    word.parse().ok()
}

impl<'a> Words<'a> {
    // Those that stand behind a line's letter.
    pub(crate) fn new(rest: &'a str) -> Option<Words<'a>> {
        if rest.is_empty() {
            return Some(Words { left: None });
        }
        let left = rest.strip_prefix(' ')?;
        Some(Words { left: Some(left) })
    }

    pub(crate) fn is_done(&self) -> bool {
        self.left.is_none()
    }

    pub(crate) fn word(&mut self) -> Option<&'a str> {
        let left = self.left?;
        let Some((word, more)) = left.split_once(' ') else {
            self.left = None;
            return Some(left);
        };
        self.left = Some(more);
        Some(word)
    }

    pub(crate) fn number(&mut self) -> Option<usize> {
        number(self.word()?)
    }

    pub(crate) fn signed(&mut self) -> Option<i64> {
        signed(self.word()?)
    }

    // 0 or 1.
    pub(crate) fn flag(&mut self) -> Option<bool> {
        match self.number()? {
            0 => Some(false),
            1 => Some(true),
            _ => None,
        }
    }

    // The next N, plain numbers.
    pub(crate) fn take<const N: usize>(&mut self) -> Option<[usize; N]> {
        let mut numbers = [0; N];
        for number in &mut numbers {
            *number = self.number()?;
        }
        Some(numbers)
    }

    // The words, if they are N plain numbers.
    pub(crate) fn all<const N: usize>(mut self) -> Option<[usize; N]> {
        let numbers = self.take()?;
        self.end()?;
        Some(numbers)
    }

    // Nothing, if no word is left.
    pub(crate) fn end(self) -> Option<()> {
        self.is_done().then_some(())
    }
}

// A line's letter, and what stands behind it.
pub(crate) fn letter(line: &str) -> Option<(char, &str)> {
    let mut chars = line.chars();
    let letter = chars.next()?;
    Some((letter, chars.as_str()))
}
