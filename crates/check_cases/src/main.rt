// The check run on kept files, and on large ones made here. `stdout` has what the independent implementation answered on the same files.
#![tactic(auto)]

use cases::{MOST_FILE, Refused};
use framing::Form;
use records::{MOST_IN_FILE, MOST_IN_STATEMENT, RECORD};
use statements::Counts;
use std::{env, io};

// The most records of a file.
const FILE: usize = MOST_IN_FILE as usize;

// The most records of a statement.
const STATEMENT: usize = MOST_IN_STATEMENT as usize;

// One record more than a file has at most.
const BIG: usize = FILE + 1;

const OPENING: &[u8; RECORD] =
    b"0112345    00010EUR2 0001234567A  310125                                                  0000000010000{                ";

const MOVEMENT: &[u8; RECORD] =
    b"0412345    00010EUR2 0001234567A05050225  060225                                 0000000  0000000000000{                ";

const CLOSING: &[u8; RECORD] =
    b"0712345    00010EUR2 0001234567A  280225                                                  0000000010000{                ";

const WRONG_CLOSING: &[u8; RECORD] =
    b"0712345    00010EUR2 0001234567A  280225                                                  0000000010000A                ";

// A case's name and the answer on its file, on a line.
fn report(rt: &impl Print, name: &str, line_end: u64, file: &[u8]) -> io::Result<()> {
    match statements::check(Form { line_end }, file) {
        Ok(
            Counts {
                statements,
                movements,
                complements,
            },
        ) => println!(rt; "{name} accepted {statements} {movements} {complements}"),
        Err(refusal) => println!(rt; "{name} refused {}", Refused(refusal)),
    }
}

// A record at its place in a large file, counted from 0.
fn put(big: &mut [[u8; RECORD]], i: usize, record: &[u8; RECORD]) {
    if let Some(place) = big.get_mut(i) {
        *place = *record;
    }
}

// As many movements of nothing, after an opening.
fn put_movements(big: &mut [[u8; RECORD]], count: usize) {
    put(big, 0, OPENING);
    for place in big.iter_mut().skip(1).take(count) {
        *place = *MOVEMENT;
    }
}

// Statements without movements, end to end.
fn put_statements(big: &mut [[u8; RECORD]]) {
    for pair in big.chunks_mut(2) {
        put(pair, 0, OPENING);
        put(pair, 1, CLOSING);
    }
}

// The answer on so many records at the start of a large file.
fn report_big(rt: &impl Print, name: &str, big: &[[u8; RECORD]], records: usize) -> io::Result<()> {
    match big.get(..records) {
        Some(file) => report(rt, name, 0, file.as_flattened()),
        None => Ok(()),
    }
}

// The most records of a file, and one more.
fn file_cases(rt: &impl Print, big: &mut [[u8; RECORD]]) -> io::Result<()> {
    put_statements(big);
    report_big(rt, "records-20000", big, FILE)?;
    report_big(rt, "records-20001", big, FILE + 1)?;
    report_big(rt, "records-19999-open", big, FILE - 1)
}

// The most records of a statement.
fn statement_cases(rt: &impl Print, big: &mut [[u8; RECORD]]) -> io::Result<()> {
    put_movements(big, STATEMENT - 2);
    put(big, STATEMENT - 1, CLOSING);
    report_big(rt, "statement-9999", big, STATEMENT)?;
    put(big, STATEMENT - 1, MOVEMENT);
    report_big(rt, "statement-9999-no-07", big, STATEMENT)
}

// A record that would be one too many.
fn last_cases(rt: &impl Print, big: &mut [[u8; RECORD]]) -> io::Result<()> {
    put(big, STATEMENT, CLOSING);
    report_big(rt, "10000th-is-07", big, STATEMENT + 1)?;
    put(big, STATEMENT, WRONG_CLOSING);
    report_big(rt, "10000th-07-sum-wrong", big, STATEMENT + 1)?;
    put(big, STATEMENT, OPENING);
    report_big(rt, "10000th-is-01", big, STATEMENT + 1)
}

// The array is lent whole. Tried in `main`: all its bytes stand in the proof of a slice of it, which does not close.
fn big_cases(rt: &impl Print, big: &mut [[u8; RECORD]; BIG]) -> io::Result<()> {
    file_cases(rt, big)?;
    statement_cases(rt, big)?;
    last_cases(rt, big)
}

fn main(rt: HostRuntime) -> io::Result<()> {
    let args: Vec<String> = env::args(&rt)?.collect(rt.alloc())?;
    cases::each(&rt, &args, 2, |path, line_end, file| {
        let file = cases::contents(rt.alloc(), file, MOST_FILE)?;
        report(&rt, path, zones::number(line_end.as_bytes()), &file)
    })?;
    let mut big = [[b' '; RECORD]; BIG];
    big_cases(&rt, &mut big)
}
