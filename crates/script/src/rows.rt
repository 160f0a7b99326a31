// The rows of class tables (`k`), in force until others come, and what the checker says of them.
use crate::numbers::Words;
use crate::reply::Reply;
use exports::call::ROW_BYTES;
use exports::codec;
use model::{Params, ROWS, Row};
use native_ms::classes;

// A script can say more rows than a call takes.
const MOST_ROWS: usize = 64;

pub(crate) const ROOM: usize = ROW_BYTES * MOST_ROWS;

// The rows in force. Those that don't fit into parameters are refused by their count alone.
#[derive(Clone, Copy)]
pub(crate) struct Rows {
    pub table: [Row; ROWS],
    pub count: usize,
}

impl Rows {
    pub(crate) fn none() -> Rows {
        Rows {
            table: classes::no_rows(),
            count: 0,
        }
    }

    // `k from to cell ..`.
    pub(crate) fn read(mut words: Words) -> Option<Rows> {
        let mut table = classes::no_rows();
        for count in 0..=MOST_ROWS {
            if words.is_done() {
                return Some(Rows { table, count });
            }
            let [from, to, cell] = words.take::<3>()?;
            if let Some(row) = table.get_mut(count) {
                *row = Row { from, to, cell };
            }
        }
        None
    }

    // The parameters with these rows.
    pub(crate) fn with(&self, p: Params) -> Params {
        Params {
            rows: self.table,
            count: self.count,
            ..p
        }
    }

    // `c log`: the check on parameters that are good with each block size.
    pub(crate) fn check(&self, rest: &str) -> Option<Reply> {
        let [log] = Words::new(rest)?.all::<1>()?;
        if !matches!(log, 12..=16) {
            return None;
        }
        let good = Params {
            base: 65536,
            bytes: 1 << log,
            blocks: 1,
            min: 8,
            max: 8,
            offsets: false,
            unified: true,
            lower: 0,
            eager: false,
            rows: self.table,
            count: self.count,
        };
        Some(verdict(&good))
    }
}

// The parameters for what is given no rows.
pub(crate) fn without(p: &Params) -> Params {
    Params { count: 0, ..*p }
}

// What the checker says of these rows.
pub(crate) fn verdict(p: &Params) -> Reply {
    classes::check_classes(*p).into()
}

// Whether a call would not refuse them.
pub(crate) fn accepted(p: &Params) -> bool {
    verdict(p).is_done()
}

// The bytes of the rows, as the exports take them.
pub(crate) fn encode(p: &Params, to: &mut [u8]) {
    for (row, to) in p.rows.iter().zip(to.chunks_exact_mut(ROW_BYTES)) {
        codec::encode(to, &[row.from, row.to, row.cell]);
    }
}

// How many bytes the rows have.
pub(crate) fn length(p: &Params) -> usize {
    ROW_BYTES * p.count.min(MOST_ROWS)
}
