// What the collector's host program calls. Each function answers one number that holds its whole answer, by `specs/Packing.antt`.
#![tactic(auto)]

ghost use Rattle.std.specs.Prelude.{◌≡◌, Ok};
ghost use Rattle.readers.specs.Answers.{paper_place};
ghost use Rattle.collector.specs.Packing.{packed_entry};
ghost use Rattle.collector.specs.Bounds.{Lines};
ghost use Rattle.collector.specs.Answers.{listed_answer, listed_content, CheckNumber, OpenNumber, DeliverNumber, ExpectedDate, ExpectedBalance, EntryNumber, UsedNumber, ListedNumber, LengthNumber, EarliestNumber};

use entries::{CONTENTS, ROW};
use framing::{Form, Reason, Refusal};
use journal::Ending;
use packing::BIT20;
use readers::Place;
use records::{MOST_IN_FILE, RECORD};

// The numbers of statements, movements and complements of a file.
pub fn crownhazel_check(line_end: u64, file: &[u8]) -> u64
    ensures { CheckNumber line_end file.now result }
{
    statements::check(Form { line_end }, file).map_or_else(
        packing::refusal,
        |c| packing::answered(c.statements, c.movements, c.complements),
    )
}

// Blanks a buffer of a right length.
pub fn crownhazel_open(journal: &mut [u8]) -> u64
    ensures { OpenNumber journal.old result journal.new }
{
    journal_layout::open(journal).map_or_else(packing::refusal, |()| packing::answered(0, 0, 0))
}

// How many statements of a file were stored, and how many were held.
pub fn crownhazel_deliver(journal: &mut [u8], line_end: u64, file: &[u8]) -> u64
    ensures { DeliverNumber journal.old line_end file.now result journal.new }
{
    journal::deliver(journal, Form { line_end }, file).map_or_else(
        |rejection| packing::refusal(rejection.refusal),
        |delivery| packing::answered(delivery.stored, delivery.held, 0),
    )
}

// What a delivery now would say was expected, where it is refused with 22: the new date and the new balance of the account's last statement, as the delivery then sees it. Else both are 0, and no `Option`: C gets two numbers.
fn expectation(journal: &[u8], line_end: u64, file: &[u8]) -> Ending
    ensures date { ExpectedDate journal.now line_end file.now result.date }
    ensures balance { ExpectedBalance journal.now line_end file.now result.balance }
{
    match journal::foretold(journal, Form { line_end }, file) {
        Ok(_) => Ending {
            date: 0,
            balance: 0,
        },
        Err(rejection) => rejection.expected,
    }
}

// The date that was expected.
pub fn crownhazel_expected_date(journal: &[u8], line_end: u64, file: &[u8]) -> u64
    ensures { ExpectedDate journal.now line_end file.now result }
{
    expectation(journal, line_end, file).date as u64
}

// The balance that was expected.
pub fn crownhazel_expected_balance(journal: &[u8], line_end: u64, file: &[u8]) -> i64
    ensures { ExpectedBalance journal.now line_end file.now result }
{
    expectation(journal, line_end, file).balance
}

// The number of records of a body, and its first body line.
fn place_number(place: Place) -> u64
    requires { Lines place.first place.len }
    ensures { result ≡ packed_entry (paper_place (Ok place)) }
{
    packing::answered(
        (place.len / RECORD) as u64,
        ((place.first - CONTENTS) / RECORD) as u64,
        0,
    )
}

// The number of records of an entry's body, and its first body line.
pub fn crownhazel_entry(journal: &[u8], entry: u64) -> u64
    ensures { EntryNumber journal.now entry result }
{
    journal_layout::entry_place(journal, entry).map_or_else(packing::refusal, place_number)
}

// The entries used, the body lines used, and the body lines in all.
pub fn crownhazel_used(journal: &[u8]) -> u64
    ensures { UsedNumber journal.now result }
{
    journal_layout::used(journal).map_or_else(
        packing::refusal,
        |usage| packing::answered(usage.entries, usage.used, usage.lines),
    )
}

// The place of an entry's body, without the sound test, and the entry's row in the first bytes of `row`.
fn list_entry(journal: &[u8], entry: u64, row: &mut [u8]) -> Result<Place, Refusal>
    ensures answer { result ≡ listed_answer journal.now entry row.old }
    ensures content { row.new ≡ listed_content journal.now entry row.old }
{
    let place = journal_layout::listed_place(journal, entry)?;
    if row.len() < ROW {
        return Err(Reason::ShortOutput.at(0));
    }
    entries::put_row(&mut row[..ROW], journal, (entry - 1) as usize);
    Ok(place)
}

// The same numbers as of an entry, without the sound test, and the entry's row in the first bytes of `row`.
pub fn crownhazel_listed(journal: &[u8], entry: u64, row: &mut [u8]) -> u64
    ensures { ListedNumber journal.now entry row.old result row.new }
{
    list_entry(journal, entry, row).map_or_else(packing::refusal, place_number)
}

// The number of records of a file of some length: the refusals 1 to 3, which its bytes have no say in.
pub fn crownhazel_length(line_end: u64, length: u64) -> u64
    ensures { LengthNumber line_end length result }
{
    framing::cut_length(
        Form { line_end },
        RECORD as u16,
        MOST_IN_FILE,
        length as usize,
    )
    .map_or_else(
        packing::refusal,
        |frame| packing::answered(frame.count as u64, 0, 0),
    )
}

// On what day a file begins: the earliest old balance date of its statements, one number over a and b.
pub fn crownhazel_earliest(line_end: u64, file: &[u8]) -> u64
    ensures { EarliestNumber line_end file.now result }
{
    contents::earliest(Form { line_end }, file).map_or_else(packing::refusal, |day| {
        packing::answered(day as u64 % BIT20, day as u64 / BIT20, 0)
    })
}
