// A customer's class table (02, R-5): whether its rows are accepted, and what is named if they are not.
ghost use Rattle.std.specs.Prelude.{◌≡◌, true, not, position, MatchOption, ◌≢◌, ◌+◌, ◌/◌, ◌<◌, ◌≤◌};
ghost use Rattle.model.specs.SizeClasses.{no_rows};
ghost use Rattle.model.specs.Classes.{row_fits, bad_count, bad_row, classes_fit};
ghost use Rattle.model.specs.Calls.{check_classes};
ghost use Rattle.model.specs.Answers.{classes_reply};
ghost use Rattle.native_ms.specs.Borders.{Bordered, Surveyed, Sizes};

use crate::address::Space;
use crate::{params, size_class};
use model::{BINS, CLASS_WORDS, Params, ROWS, Refusal, Row, Verdict};

// What stands in place of rows where none are given.
pub fn no_rows() -> [Row; ROWS]
    ensures { result ≡ no_rows }
{
    let row = Row {
        from: 0,
        to: 0,
        cell: 0,
    };
    [row; ROWS]
}

// How many rows a count of words falls in, and the next count, if any, that may fall in others.
#[derive(Clone, Copy)]
pub(crate) struct Stretch {
    pub rows: usize,
    pub next: usize,
}

// The least count past `at`, and not past `next`, at which the row begins or has ended.
fn border(row: Row, at: usize, next: usize) -> usize
    requires { at < next }
    ensures { Bordered row at next result }
{
    if at < row.from {
        return row.from.min(next);
    }
    if row.from == 0 || row.to < at {
        return next;
    }
    row.to.min(next - 1) + 1
}

// What stands at a count of words, before `end`.
#[tactic(auto, using(laws::proofs::Below::sum_start, laws::proofs::Below::sum_up), unfolding(model::specs::Base::flag))]
fn survey(space: &Space, at: usize, end: usize) -> Stretch
    requires { at < end }
    ensures { Surveyed space.now.p at end result.rows result.next }
{
    let mut over = 0;
    let mut next = end;
    let rows = size_class::given(&space.p.rows, space.p.count);
    for row in rows {
        over += usize::from(size_class::covers(*row, at));
        next = border(*row, at, next);
    }
    Stretch { rows: over, next }
}

// The least count of words that falls in no row or in more than one, if any does. It goes from border to border, since up to the
// next one every count falls in the same rows: no `for`, which would look at each count (speed, docs/SPEED.md).
#[tactic(auto, using(crate::proofs::Limits::bytes_few))]
fn bad_count(space: &Space) -> Option<usize>
    ensures { MatchOption result (bad_count space.now.p ≡ 0) (λ n. (n ≡ bad_count space.now.p) × (n ≢ 0)) }
{
    let words = space.p.bytes / 8;
    let mut at: usize = 1;
    while at <= words {
        let here = survey(space, at, words + 1);
        if here.rows != 1 {
            return Some(at);
        }
        at = here.next;
    }
    None
}

// Whether the row covers something, and its cell holds that and fits the block.
#[tactic(auto, unfolding(model::specs::Classes::row_fits, model::specs::Classes::block_words))]
fn row_fits(p: Params, row: Row) -> bool
    ensures { result ≡ row_fits p row }
{
    0 < row.from && row.from <= row.to && row.to <= row.cell && row.cell <= p.bytes / 8
}

// The first of these rows that is unfit.
fn first_unfit(p: Params, rows: &[Row]) -> Option<usize>
    ensures { result ≡ position (λ r. not (row_fits p r)) rows.now }
{
    rows.iter().position(|row| !row_fits(p, *row))
}

// The same of the rows that are given, counted from 1.
fn bad_row(space: &Space) -> Option<usize>
    ensures { MatchOption result (bad_row space.now.p ≡ 0) (λ n. (n ≡ bad_row space.now.p) × (n ≢ 0)) }
{
    let rows = size_class::given(&space.p.rows, space.p.count);
    let first = first_unfit(space.p, rows)?;
    Some(first + 1)
}

// Whether the rows are accepted. Without rows nothing is looked at.
#[tactic(auto, unfolding(model::specs::Classes::classes_fit))]
pub(crate) fn classes_fit(space: &Space) -> bool
    ensures { result ≡ classes_fit space.now.p }
{
    space.p.count == 0 || bad_count(space).is_none() && bad_row(space).is_none()
}

// The cells of the rows in words, by bin; 0 for a bin without a row.
fn row_sizes(space: &Space) -> [usize; BINS]
    requires { (classes_fit space.now.p ≡ true) × (space.now.p.count ≢ 0) }
    ensures { Sizes space.now.p result }
{
    let mut sizes = [0; BINS];
    let rows = size_class::given(&space.p.rows, space.p.count);
    for (n, row) in rows.iter().enumerate() {
        sizes[n + 1] = row.cell;
    }
    sizes
}

// The cells of all bins in words. That the rows are accepted is asked for from the test of the tables down to here, one after the other: a type
// that holds it would be made and taken apart at each step.
pub(crate) fn class_sizes(space: &Space) -> [usize; BINS]
    requires { classes_fit space.now.p ≡ true }
    ensures { Sizes space.now.p result }
{
    if space.p.count == 0 {
        return CLASS_WORDS;
    }
    row_sizes(space)
}

// Names the least count of words that is missed or covered twice, or, where there is none, the first unfit row.
#[tactic(auto, unfolding(model::specs::Calls::check_classes, model::specs::Calls::checked_rows, model::specs::Answers::classes_reply))]
pub fn check_classes(p: Params) -> Result<Verdict, Refusal>
    ensures { classes_reply result ≡ check_classes p }
{
    if !params::good_params(p) {
        return Err(Refusal::BadSetup);
    }
    if p.count == 0 {
        return Ok(Verdict::Accepted);
    }
    let space = Space { p };
    if let Some(count) = bad_count(&space) {
        return Ok(Verdict::BadCount(count));
    }
    if let Some(row) = bad_row(&space) {
        return Ok(Verdict::BadRow(row));
    }
    Ok(Verdict::Accepted)
}
