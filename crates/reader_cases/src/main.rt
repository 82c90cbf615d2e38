// The readers by number run on kept files. `stdout` has what the independent implementation answered on the same files.
#![tactic(auto)]

use cases::{MOST_FILE, Refused, Text};
use contents::Summary;
use fields::Movement;
use framing::{Form, Refusal};
use grammar::Key;
use readers::Place;
use records::{MOST_IN_FILE, TEXT};
use std::{env, fmt, io};

// A number of no statement, movement or complement: one more than a file has records.
const NONE: u64 = MOST_IN_FILE as u64 + 1;

// Bank, branch, currency, decimals, account. `listing` prints the same zones in another order.
#[derive(Clone, Copy)]
struct Account(Key);

impl fmt::Display for Account {
    fn fmt<W: fmt::Write>(&self, f: &mut fmt::Formatter<W>) -> fmt::Result {
        write!(
            f,
            "{} {} {} {} {}",
            Text(&self.0.bank),
            Text(&self.0.branch),
            Text(&self.0.currency),
            char::from(self.0.decimals),
            Text(&self.0.account)
        )
    }
}

// A movement's fields, a bar between two.
#[derive(Clone, Copy)]
struct Posting(Movement);

impl fmt::Display for Posting {
    fn fmt<W: fmt::Write>(&self, f: &mut fmt::Formatter<W>) -> fmt::Result {
        let m = self.0;
        write!(
            f,
            "{}|{}|{}|{}|{}|{}|{}|{}|{}|{}|{}|{}",
            Text(&m.internal),
            Text(&m.code),
            m.booked,
            Text(&m.reject),
            m.value,
            Text(&m.label),
            m.entry,
            char::from(m.exempt),
            char::from(m.unavailable),
            m.amount,
            Text(&m.reference),
            m.complements
        )
    }
}

// The two numbers are printed by `Refused`, as in `listing`. The word is this program's own.
fn refused(rt: &impl Print, refusal: Refusal) -> io::Result<()> {
    println!(rt; "refused {}", Refused(refusal))
}

fn head_line(rt: &impl Print, answer: Result<Summary, Refusal>) -> io::Result<()> {
    let summary = match answer {
        Ok(summary) => summary,
        Err(refusal) => return refused(rt, refusal),
    };
    let h = summary.head;
    println!(rt;
        "{} {} {} {} {} {}",
        Account(h.key),
        h.old_date,
        h.old_balance,
        h.new_date,
        h.new_balance,
        summary.movements
    )
}

// The head's line goes on behind a place.
fn place_words(rt: &impl Print, answer: Result<Place, Refusal>) -> io::Result<()> {
    match answer {
        Ok(place) => print!(rt; "S {} {} ", place.first, place.len),
        Err(refusal) => refused(rt, refusal),
    }
}

fn movement_line(rt: &impl Print, answer: Result<Movement, Refusal>) -> io::Result<()> {
    match answer {
        Ok(movement) => println!(rt; "M {}", Posting(movement)),
        Err(refusal) => refused(rt, refusal),
    }
}

fn complement_line(rt: &impl Print, answer: Result<[u8; TEXT], Refusal>) -> io::Result<()> {
    match answer {
        Ok(text) => println!(rt; "C {}", Text(&text)),
        Err(refusal) => refused(rt, refusal),
    }
}

fn complement_lines(
    rt: &impl Print,
    form: Form,
    file: &[u8],
    k: u64,
    i: u64,
    count: u64,
) -> io::Result<()> {
    for j in 1..=count {
        complement_line(rt, contents::complement_of(form, file, k, i, j))?;
    }
    Ok(())
}

fn movement_lines(rt: &impl Print, form: Form, file: &[u8], k: u64, count: u64) -> io::Result<()> {
    for i in 1..=count {
        let answer = contents::movement_of(form, file, k, i);
        movement_line(rt, answer)?;
        if let Ok(movement) = answer {
            complement_lines(rt, form, file, k, i, movement.complements)?;
        }
    }
    Ok(())
}

fn statement_lines(rt: &impl Print, form: Form, file: &[u8], count: u64) -> io::Result<()> {
    for k in 1..=count {
        place_words(rt, readers::statement_place(form, file, k))?;
        let answer = contents::head_of(form, file, k);
        head_line(rt, answer)?;
        if let Ok(summary) = answer {
            movement_lines(rt, form, file, k, summary.movements)?;
        }
    }
    Ok(())
}

// Numbers that nothing has: 0, and one past every limit.
fn outside_lines(rt: &impl Print, form: Form, file: &[u8]) -> io::Result<()> {
    place_words(rt, readers::statement_place(form, file, 0))?;
    place_words(rt, readers::statement_place(form, file, NONE))?;
    head_line(rt, contents::head_of(form, file, 0))?;
    head_line(rt, contents::head_of(form, file, NONE))?;
    movement_line(rt, contents::movement_of(form, file, 1, 0))?;
    movement_line(rt, contents::movement_of(form, file, 1, NONE))?;
    complement_line(rt, contents::complement_of(form, file, 1, 1, 0))?;
    complement_line(rt, contents::complement_of(form, file, 1, 1, NONE))
}

// A case's name, all that its file holds, and the refusals.
fn report(rt: &impl Print, name: &str, form: Form, file: &[u8]) -> io::Result<()> {
    println!(rt; "{name}")?;
    match statements::check(form, file) {
        Ok(counts) => statement_lines(rt, form, file, counts.statements)?,
        Err(refusal) => refused(rt, refusal)?,
    }
    outside_lines(rt, form, file)
}

fn main(rt: HostRuntime) -> io::Result<()> {
    let args: Vec<String> = env::args(&rt)?.collect(rt.alloc())?;
    cases::each(&rt, &args, 2, |path, line_end, file| {
        let file = cases::contents(rt.alloc(), file, MOST_FILE)?;
        let line_end = zones::number(line_end.as_bytes());
        report(&rt, path, Form { line_end }, &file)
    })?;
    Ok(())
}
