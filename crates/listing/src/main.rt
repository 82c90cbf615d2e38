// The listing program: reads a file with LF line ends from standard input and lists its statements and movements.
#![tactic(auto)]

ghost use Rattle.std.specs.Prelude.{◌-◌, length};
ghost use Rattle.std.specs.Iterator.{at_most};

use cases::{Refused, Text};
use contents::Summary;
use fields::Movement;
use framing::{Form, Refusal};
use grammar::Key;
use records::RECORD;
use std::{fmt, io};

// The bytes of a record with its line end.
const LINE: usize = RECORD + 1;

// The most bytes that are listed: 540 records.
const MOST: usize = 540 * LINE;

const LF: Form = Form { line_end: 1 };

// A day, as YYYY-MM-DD.
#[derive(Clone, Copy)]
struct Day(u32);

impl fmt::Display for Day {
    fn fmt<W: fmt::Write>(&self, f: &mut fmt::Formatter<W>) -> fmt::Result {
        let (year, month, day) = (self.0 / 10000, self.0 / 100 % 100, self.0 % 100);
        write!(f, "{year:04}-{month:02}-{day:02}")
    }
}

// Bank, branch, account, currency, decimals. `reader_cases` prints the same zones in another order.
#[derive(Clone, Copy)]
struct Account(Key);

impl fmt::Display for Account {
    fn fmt<W: fmt::Write>(&self, f: &mut fmt::Formatter<W>) -> fmt::Result {
        write!(
            f,
            "{} {} {} {} {}",
            Text(&self.0.bank),
            Text(&self.0.branch),
            Text(&self.0.account),
            Text(&self.0.currency),
            char::from(self.0.decimals)
        )
    }
}

// Booking date, value date, code, amount.
fn movement_line(rt: &impl Print, m: Movement) -> io::Result<()> {
    println!(rt;
        "M {} {} {} {}",
        Day(m.booked),
        Day(m.value),
        Text(&m.code),
        m.amount
    )
}

// Account, old date and balance, number of movements, new date and balance.
fn statement_line(rt: &impl Print, s: Summary) -> io::Result<()> {
    let h = s.head;
    println!(rt;
        "S {} {} {} {} {} {}",
        Account(h.key),
        Day(h.old_date),
        h.old_balance,
        s.movements,
        Day(h.new_date),
        h.new_balance
    )
}

// The parts of a file from a place on, with one statement each.
#[derive(Clone, Copy)]
struct Parts<'a> {
    file: &'a [u8],
    at: usize,
}

impl<'a> Iterator for Parts<'a> {
    type Item = &'a [u8];

    ghost remaining = { λ s. at_most (length s.file.now - s.at) };

    #[tactic(auto, using(readers::proofs::Walk::end_after_lem, readers::proofs::Walk::end_inside))]
    fn next(&mut self) -> Option<&'a [u8]> {
        if self.file.len() <= self.at {
            return None;
        }
        let start = self.at;
        self.at = readers::statement_end(LF, self.file, start);
        Some(&self.file[start..self.at])
    }
}

// The movements of a part from a place on.
#[derive(Clone, Copy)]
struct Movements<'a> {
    part: &'a [u8],
    at: usize,
}

impl Iterator for Movements<'_> {
    type Item = Movement;

    ghost remaining = { λ s. at_most (length s.part.now - s.at) };

    #[tactic(auto, using(crate::proofs::Onward::step_onward))]
    fn next(&mut self) -> Option<Movement> {
        if self.part.len() <= self.at {
            return None;
        }
        let record = contents::record_at(self.part, self.at);
        let step = readers::movement_step(self.part, LF, self.at)?;
        self.at = step.next;
        Some(fields::row_at(record, step.complements))
    }
}

// The two numbers are printed by `Refused`, as in `reader_cases`. The word is this program's own.
fn refusal_line(rt: &impl Print, refusal: Refusal) -> io::Result<()> {
    println!(rt; "REFUS {}", Refused(refusal))
}

// A statement is the one statement of its part. Its movements begin after its 01.
fn statement_lines(rt: &impl Print, part: &[u8]) -> io::Result<()> {
    match contents::head_of(LF, part, 1) {
        Ok(summary) => statement_line(rt, summary)?,
        Err(refusal) => return refusal_line(rt, refusal),
    }
    for movement in (Movements { part, at: LINE }) {
        movement_line(rt, movement)?;
    }
    Ok(())
}

fn answer(rt: &impl Print, file: &[u8]) -> io::Result<()> {
    if MOST < file.len() {
        return println!(rt; "TROP LONG");
    }
    match statements::check(LF, file) {
        Err(refusal) => refusal_line(rt, refusal),
        Ok(counts) => {
            for part in (Parts { file, at: 0 }) {
                statement_lines(rt, part)?;
            }
            println!(rt; "OK {}", counts.statements)
        }
    }
}

fn main(rt: HostRuntime) -> io::Result<()> {
    let file = cases::contents(rt.alloc(), rt.reader(), MOST as u64 + 1)?;
    answer(&rt, &file)
}
