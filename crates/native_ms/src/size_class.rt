// Size classes: the cell sizes of the bins, and the bin of a size; document 01's, and those of a customer's rows (02, R-5).
ghost use Rattle.std.specs.Prelude.{◌≡◌, ◌<◌, ◌≤◌, length, take, min, position};
ghost use Rattle.model.specs.Base.{least_from};
ghost use Rattle.model.specs.Params.{bins};
ghost use Rattle.model.specs.SizeClasses.{bin_in_octave, class_bytes, mi_bin, row_at, covers, words_in, words_asked, cell_bytes, bin_of};

use model::{BINS, CLASS_WORDS, LAST_BIN, Params, ROWS, Row};

// ---- document 01's

// The cell size of a bin in bytes; 0 past the last bin, as the definition that it equals has it. Past bin 8 there are four bins to the octave.
// It is computed, for speed: the table is built on the stack for each look-up (docs/SPEED.md).
pub fn class_bytes(bin: usize) -> usize
    ensures { result ≡ class_bytes bin }
{
    if BINS <= bin {
        return 0;
    }
    if bin == 0 {
        return 8;
    }
    if bin < 9 {
        return bin * 8;
    }
    let step = bin - 9;
    (5 + step % 4) << (step / 4 + 4)
}

// A size in words, rounded up.
#[tactic(auto, unfolding(model::specs::SizeClasses::words_in))]
fn words_in(size: usize) -> usize
    ensures { result ≡ words_in size }
{
    size.div_ceil(8)
}

// The bin of n + 1 words, past eight: the position of the highest one bit picks the octave.
fn bin_in_octave(n: usize) -> usize
    requires { (8 ≤ n) × (n < 8192) }
    ensures { result ≡ bin_in_octave n }
{
    let zeros = usize::leading_zeros(n);
    let b = 63 - zeros as usize;
    b * 4 + ((n >> (b - 2)) & 3) - 3
}

// The bin of a size in bytes; 0 past the largest class, where there is none, as 01 numbers bins.
pub fn mi_bin_from_size(size: usize) -> usize
    ensures { result ≡ mi_bin size }
{
    if CLASS_WORDS[LAST_BIN] * 8 < size {
        return 0;
    }
    let words = words_in(size);
    if words <= 1 {
        return 1;
    }
    if words <= 8 {
        return words;
    }
    bin_in_octave(words - 1)
}

// ---- by rows or without

// How many words a size asks for: a size of 0 asks for one.
#[tactic(auto, unfolding(model::specs::SizeClasses::words_asked))]
fn words_asked(size: usize) -> usize
    ensures { result ≡ words_asked size }
{
    if size == 0 {
        return 1;
    }
    words_in(size)
}

// Whether a count of words falls in the row.
#[tactic(auto, unfolding(model::specs::SizeClasses::covers))]
pub(crate) fn covers(row: Row, words: usize) -> bool
    ensures { result ≡ covers row words }
{
    0 < row.from && row.from <= words && words <= row.to
}

// The first rows, as many as are given.
pub(crate) fn given(rows: &[Row; ROWS], count: usize) -> &[Row]
    ensures rows { result.now ≡ take (min count 48) rows.now }
    ensures length { length result.now ≡ min count 48 }
    ensures all { length rows.now ≡ 48 }
{
    &rows[..count.min(ROWS)]
}

// The first of these rows that a count of words falls in.
fn first_covering(rows: &[Row], words: usize) -> Option<usize>
    ensures { result ≡ position (λ r. covers r words) rows.now }
{
    rows.iter().position(|row| covers(*row, words))
}

// The same of the rows that are given, counted from 1; 0 for none, as 01 numbers bins, so that `bin_of` passes it on.
fn row_for(p: Params, words: usize) -> usize
    ensures { result ≡ least_from p.count 1 (λ n. covers (row_at p n) words) }
{
    let rows = given(&p.rows, p.count);
    match first_covering(rows, words) {
        Some(n) => n + 1,
        None => 0,
    }
}

// The bin of a size in bytes: the row that its words fall in, or without rows `mi_bin_from_size`. 0 for none, as 01 numbers bins and
// the definition that it equals has it.
#[tactic(auto, unfolding(model::specs::SizeClasses::bin_of))]
pub fn bin_of(p: Params, size: usize) -> usize
    ensures { result ≡ bin_of p size }
{
    if p.count == 0 {
        return mi_bin_from_size(size);
    }
    row_for(p, words_asked(size))
}

// The cell size of a bin in bytes, which is known to be small; 0 for a bin without a row.
#[tactic(auto, unfolding(model::specs::SizeClasses::cell_bytes, model::specs::SizeClasses::row_at))]
pub(crate) fn cell_bytes(p: Params, bin: usize) -> usize
    requires { (bin < bins) × (cell_bytes p bin ≤ 65536) }
    ensures { result ≡ cell_bytes p bin }
{
    if p.count == 0 {
        return class_bytes(bin);
    }
    if bin == 0 || p.count < bin {
        return 0;
    }
    p.rows[bin - 1].cell * 8
}
