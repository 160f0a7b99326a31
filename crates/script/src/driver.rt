// What goes from line to line, and what each line does to it.
use crate::lines::Lines;
use crate::numbers::Words;
use crate::out::Out;
use crate::reply::{MOST_ANSWER, Reply};
use crate::rows::Rows;
use crate::space::Memory;
use crate::{Stop, direct, dump, numbers, run_lines, setup};
use model::Params;
use std::io::Write;

#[derive(Drop)]
pub(crate) struct Driver<'a> {
    rows: Rows,
    // those of the last set-up, if it stands
    params: Option<Params>,
    // the length of the answer slice, where calls are made through the exports
    via: Option<usize>,
    memory: &'a mut Memory,
}

fn answer_length(word: &str) -> Option<usize> {
    numbers::number(word).filter(|length| *length <= MOST_ANSWER)
}

// A reply's line; there is none at a bad line.
fn say(reply: Option<Reply>, out: &mut Out) -> Result<(), Stop> {
    let reply = reply.ok_or(Stop::Bad)?;
    writeln!(out, "{reply}")?;
    Ok(())
}

impl<'a> Driver<'a> {
    pub(crate) fn new(memory: &'a mut Memory) -> Driver<'a> {
        Driver {
            rows: Rows::none(),
            params: None,
            via: None,
            memory,
        }
    }

    fn set_up(&mut self, rest: &str) -> Option<Reply> {
        let start = setup::read(&self.rows, Words::new(rest)?)?;
        let reply = setup::set_up(&start, self.via, self.memory)?;
        self.params = reply.is_done().then_some(start.params);
        Some(reply)
    }

    // What a call is given: the parameters of the set-up that stands, with the rows in force.
    fn given(&self) -> Result<Params, Stop> {
        let params = self.params.ok_or(Stop::Bad)?;
        Ok(self.rows.with(params))
    }

    // `x length`, `x -`: whether the lines that follow go through the exports.
    fn choose(&mut self, rest: &str) -> Option<Reply> {
        let mut words = Words::new(rest)?;
        let word = words.word()?;
        words.end()?;
        self.via = if word == "-" {
            None
        } else {
            Some(answer_length(word)?)
        };
        Some(Reply::Done)
    }

    // `k from to cell ..`: the rows that later calls are given, set-up too.
    fn give_rows(&mut self, rest: &str) -> Option<Reply> {
        self.rows = Rows::read(Words::new(rest)?)?;
        Some(Reply::Done)
    }

    // A line on what a set-up lent. A match: two letters print by themselves and the others reply, so functions of one form would do both.
    fn on_space(&mut self, letter: char, rest: &str, out: &mut Out) -> Result<(), Stop> {
        let params = self.given()?;
        let mut lent = self.memory.lend(&params);
        match (letter, rest) {
            ('D', "") => dump::all(&lent, out)?,
            ('H', "") => dump::heap_line(lent.heap, out)?,
            _ => say(
                direct::answer(&params, self.via, &mut lent, letter, rest),
                out,
            )?,
        }
        Ok(())
    }

    // `z n`: the next n lines are read, and then made by one call; not through the exports.
    fn run_row(&mut self, count: usize, lines: &mut Lines, out: &mut Out) -> Result<(), Stop> {
        let params = self.given()?;
        if self.via.is_some() {
            return Err(Stop::Bad);
        }
        let mut lent = self.memory.lend(&params);
        run_lines::run_row(&params, count, lines, &mut lent, out)
    }

    // The line that was read last. A match, as the lines change the driver, the space or nothing: as closures all would hold the driver.
    pub(crate) fn hear(&mut self, lines: &mut Lines, out: &mut Out) -> Result<(), Stop> {
        if lines.is_skipped() {
            return Ok(());
        }
        let text = lines.text().ok_or(Stop::Bad)?;
        if let Some(rest) = text.strip_prefix("setup") {
            return say(self.set_up(rest), out);
        }
        let (letter, rest) = numbers::letter(text).ok_or(Stop::Bad)?;
        match letter {
            'x' => say(self.choose(rest), out),
            'k' => say(self.give_rows(rest), out),
            'c' => say(self.rows.check(rest), out),
            'z' => {
                let count = run_lines::asked(rest).ok_or(Stop::Bad)?;
                self.run_row(count, lines, out)
            }
            _ => self.on_space(letter, rest, out),
        }
    }
}
