// Series of operations run on a journal. `stdout` has what the independent implementation answered on the same series.
#![tactic(auto)]

ghost use Rattle.std.specs.Prelude.{◌<◌, length, IfSome};
ghost use Rattle.std.specs.Iterator.{at_most};

use cases::Refused;
use framing::Form;
use journal::{Found, KEY};
use std::io::Read;
use std::{env, io};

// The most bytes of a journal.
const MOST_JOURNAL: usize = 65536;

// The most bytes that are read of a series.
const MOST_SERIES: u64 = 131072;

// The bytes of an operation before its payload.
const HEADER: usize = 31;

// How many numbers there are for a journal's bytes.
const HASHES: u64 = 4294967291;

// What a series may ask of a journal.
#[derive(Clone, Copy)]
enum Operation<'a> {
    Renew { size: usize },
    Open,
    Sound,
    Entry { number: u64 },
    Poke { offset: usize, byte: u8 },
    Deliver { form: Form, file: &'a [u8] },
    Newest { form: Form, payload: &'a [u8] },
}

// The operations of a series. The first that is malformed is none, and the last.
#[derive(Clone, Copy)]
struct Operations<'a>(&'a [u8]);

impl<'a> Iterator for Operations<'a> {
    type Item = Option<Operation<'a>>;

    ghost remaining = { λ s. at_most (length s.0.now) };

    fn next(&mut self) -> Option<Option<Operation<'a>>> {
        if self.0.is_empty() {
            return None;
        }
        match first_operation(self.0) {
            Some((operation, rest)) => {
                self.0 = rest;
                Some(Some(operation))
            }
            None => {
                self.0 = &[];
                Some(None)
            }
        }
    }
}

fn is_header(h: &[u8; HEADER]) -> bool {
    (h[1] == b' ')
        & zones::digits(&h[2..21])
        & (h[21] == b' ')
        & zones::digits(&h[22..30])
        & (h[30] == b'\n')
}

// The operation that leads a series, and the rest of the series. Only a delivery and the question for the newest statement have a payload.
fn first_operation(series: &[u8]) -> Option<(Operation<'_>, &[u8])>
    ensures { IfSome result (λ r. length r.1.now < length series.now) }
{
    let (header, rest) = series.split_first_chunk::<HEADER>()?;
    if !is_header(header) {
        return None;
    }
    let a = zones::number(&header[2..21]);
    let b = zones::number(&header[22..30]);
    let form = Form { line_end: a };
    match header[0] {
        b'J' => Some((Operation::Renew { size: a as usize }, rest)),
        b'O' => Some((Operation::Open, rest)),
        b'S' => Some((Operation::Sound, rest)),
        b'E' => Some((Operation::Entry { number: a }, rest)),
        b'P' => {
            let byte = u8::try_from(b).ok()?;
            let offset = a as usize;
            Some((Operation::Poke { offset, byte }, rest))
        }
        b'D' => {
            let (file, rest) = rest.split_at_checked(b as usize)?;
            Some((Operation::Deliver { form, file }, rest))
        }
        b'N' => {
            let (payload, rest) = rest.split_at_checked(b as usize)?;
            Some((Operation::Newest { form, payload }, rest))
        }
        _ => None,
    }
}

// A number over all the journal's bytes, so that a line also tells what a journal holds.
fn hash(journal: &[u8]) -> u32 {
    journal.iter().fold(0, |h, b| {
        ((u64::from(h) * 31 + u64::from(*b)) % HASHES) as u32
    })
}

// A new journal: dots, as long as the operation says.
fn renew(rt: &impl Print, journal: &mut [u8]) -> io::Result<()> {
    journal.fill(b'.');
    println!(rt; "J {}", journal.len())
}

fn open(rt: &impl Print, journal: &mut [u8]) -> io::Result<()> {
    match journal_layout::open(journal) {
        Ok(()) => println!(rt; "O opened {}", hash(journal)),
        Err(refusal) => println!(rt; "O refused {} {}", Refused(refusal), hash(journal)),
    }
}

fn sound(rt: &impl Print, journal: &[u8]) -> io::Result<()> {
    if journal_layout::sound(journal) {
        println!(rt; "S sound")
    } else {
        println!(rt; "S unsound")
    }
}

fn entry(rt: &impl Print, journal: &[u8], number: u64) -> io::Result<()> {
    match journal_layout::entry_place(journal, number) {
        Ok(place) => println!(rt; "E at {} {}", place.first, place.len),
        Err(refusal) => println!(rt; "E refused {}", Refused(refusal)),
    }
}

// A byte changed, where the journal has it.
fn poke(journal: &mut [u8], offset: usize, byte: u8) {
    if let Some(b) = journal.get_mut(offset) {
        *b = byte;
    }
}

fn deliver(rt: &impl Print, journal: &mut [u8], form: Form, file: &[u8]) -> io::Result<()> {
    match journal::deliver(journal, form, file) {
        Ok(delivery) => println!(rt;
            "D stored {} held {} {}",
            delivery.stored,
            delivery.held,
            hash(journal)
        ),
        Err(rejection) => println!(rt;
            "D refused {} expected {} {} {}",
            Refused(rejection.refusal),
            rejection.expected.date,
            rejection.expected.balance,
            hash(journal)
        ),
    }
}

// Where the newest statement of an account stands. The account's key leads the payload, and the file follows it: a payload too short for a key is all key.
// Bodies have no line ends, so their line-end number is 0.
fn newest(rt: &impl Print, journal: &[u8], form: Form, payload: &[u8]) -> io::Result<()> {
    let (key, file) = payload.split_at(payload.len().min(KEY));
    match journal::newest_place(journal, form, file, key) {
        Ok(Found::InJournal { first, len }) => println!(rt; "N journal {first} {len} 0"),
        Ok(
            Found::InFile {
                first,
                len,
                line_end,
            },
        ) => println!(rt; "N file {first} {len} {line_end}"),
        Err(refusal) => println!(rt; "N refused {}", Refused(refusal)),
    }
}

fn perform(rt: &impl Print, journal: &mut [u8], operation: Operation<'_>) -> io::Result<()> {
    match operation {
        Operation::Renew { size: _ } => renew(rt, journal),
        Operation::Open => open(rt, journal),
        Operation::Sound => sound(rt, journal),
        Operation::Entry { number } => entry(rt, journal, number),
        Operation::Poke { offset, byte } => {
            poke(journal, offset, byte);
            Ok(())
        }
        Operation::Deliver { form, file } => deliver(rt, journal, form, file),
        Operation::Newest { form, payload } => newest(rt, journal, form, payload),
    }
}

// The operations of a series in turn, on a journal at the start of a buffer, empty at first.
fn run(rt: &impl Print, buffer: &mut [u8], series: &[u8]) -> io::Result<()> {
    let mut n: usize = 0;
    for operation in Operations(series) {
        let Some(operation) = operation else {
            return println!(rt; "malformed");
        };
        if let Operation::Renew { size } = operation {
            n = size;
        }
        if buffer.len() < n {
            return println!(rt; "too long");
        }
        perform(rt, &mut buffer[..n], operation)?;
    }
    Ok(())
}

// The array is lent whole: a slice of it where it is made would have all its bytes in its proof, as in `check_cases`.
fn run_in(
    rt: &(impl Print + Alloc),
    file: impl Read + Drop,
    buffer: &mut [u8; MOST_JOURNAL],
) -> io::Result<()> {
    let series = cases::contents(rt.alloc(), file, MOST_SERIES)?;
    run(rt, buffer, &series)
}

fn main(rt: HostRuntime) -> io::Result<()> {
    let args: Vec<String> = env::args(&rt)?.collect(rt.alloc())?;
    cases::each(&rt, &args, 1, |path, _, file| {
        println!(rt; "== data/{path}")?;
        let mut buffer = [0u8; MOST_JOURNAL];
        run_in(&rt, file, &mut buffer)
    })?;
    Ok(())
}
