// The dump: every table word, every mark byte, and the heap's hash.
use crate::fill;
use crate::out::Out;
use crate::reply::Hex;
use crate::space::Lent;
use model::{LISTS, PARTS};
use std::io;
use std::io::Write;
use words::{states, tables};

// Bit h if the holder h has the mark, bit 0 for the shared part.
fn mask<F: Fn(usize) -> bool>(has_mark: F) -> usize
    requires { F.IsAlwaysCallable has_mark }
{
    let mut mask = 0;
    for part in 0..PARTS {
        mask |= usize::from(has_mark(part)) << part;
    }
    mask
}

fn phase(w: &[usize], out: &mut Out) -> io::Result<()> {
    let phase = tables::phase(w);
    let bound = mask(|part| part != 0 && tables::bound(w, part - 1) != 0);
    let released = mask(|part| tables::released(w, part) != 0);
    writeln!(out, "phase {phase} bound {bound} released {released}")
}

fn block(w: &[usize], i: usize, state: u8, out: &mut Out) -> io::Result<()> {
    let next = tables::next(w, i);
    let prev = tables::prev(w, i);
    let free = tables::free(w, i);
    let size = tables::size(w, i);
    let list = tables::list(w, i);
    let tls = tables::tls(w, i);
    let cells = tables::cells(w, i);
    writeln!(
        out,
        "block {i} {state} {next} {prev} {free} {size} {list} {tls} {cells}"
    )
}

// A list, if it has a first or a last.
fn list(number: usize, first: usize, last: usize, out: &mut Out) -> io::Result<()> {
    if first == 0 && last == 0 {
        return Ok(());
    }
    writeln!(out, "list {number} {first} {last}")
}

fn blocks(w: &[usize], states: &[u8], out: &mut Out) -> io::Result<()> {
    for (i, state) in states.iter().enumerate() {
        block(w, i, *state, out)?;
    }
    Ok(())
}

// They are counted from 1.
fn lists(w: &[usize], out: &mut Out) -> io::Result<()> {
    for i in 0..LISTS {
        list(i + 1, tables::first(w, i), tables::last(w, i), out)?;
    }
    Ok(())
}

pub(crate) fn all(lent: &Lent, out: &mut Out) -> io::Result<()> {
    phase(lent.words, out)?;
    blocks(lent.words, lent.states, out)?;
    lists(lent.words, out)?;
    writeln!(out, "marks {}", Hex(lent.marks))?;
    writeln!(out, "heap {:016x}\nend", fill::hash(lent.heap))
}

// All heap bytes.
pub(crate) fn heap_line(heap: &[u8], out: &mut Out) -> io::Result<()> {
    writeln!(out, "{}", Hex(heap))
}
