// The journal's table of contents: an entry written, what it says of its body and of its statement, and the body that it names. Only `put_entry`, `entry_fields` and `put_fields` know an entry's positions.
#![tactic(auto)]

ghost use Rattle.std.specs.Prelude.{◌≡◌, true, false, length, MatchOption};
ghost use Rattle.records.specs.July.{record_size};
ghost use Rattle.entries.specs.Entries.{entry_size, row_size, key_text, dates_text, place_text, fields_of, entry_of, entry_bytes, entry_there, row_of};
ghost use Rattle.entries.specs.Answers.{PutEntry, EntryAt, UsedAt, PutRow, BodyAt};

use records::RECORD;

// The most entries of a journal.
pub const MOST_ENTRIES: usize = 128;

// The bytes of an entry.
pub const ENTRY: usize = 60;

// The bytes of the table of contents: body lines begin behind it.
pub const CONTENTS: usize = MOST_ENTRIES * ENTRY;

// The bytes of a row: what an entry says of its statement.
pub const ROW: usize = 41;

// What an entry says: its body's first line, and its number of records.
#[derive(Clone, Copy)]
pub struct Entry {
    pub first: usize,
    pub records: usize,
}

// Bank, branch, currency, decimals, account, as in the 01.
fn put_key(dst: &mut [u8], opening: &[u8])
    requires { (length dst.old ≡ 25) × (length opening.now ≡ record_size) }
    ensures { dst.new ≡ key_text opening.now }
{
    zones::put(&mut dst[0..5], &opening[2..7]);
    zones::put(&mut dst[5..10], &opening[11..16]);
    zones::put(&mut dst[10..13], &opening[16..19]);
    zones::put(&mut dst[13..14], &opening[19..20]);
    zones::put(&mut dst[14..25], &opening[21..32]);
}

// The old date and the new one, as in the 01 and the 07.
fn put_dates(dst: &mut [u8], opening: &[u8], closing: &[u8])
    requires { (length dst.old ≡ 12) × (length opening.now ≡ record_size) × (length closing.now ≡ record_size) }
    ensures { dst.new ≡ dates_text opening.now closing.now }
{
    zones::put(&mut dst[0..6], &opening[34..40]);
    zones::put(&mut dst[6..12], &closing[34..40]);
}

// The first body line, the number of records, and blanks.
fn put_place(dst: &mut [u8], first: usize, records: usize)
    requires { length dst.old ≡ 23 }
    ensures { dst.new ≡ place_text first records }
{
    zones::put_number(&mut dst[0..6], first as u64);
    zones::put_number(&mut dst[6..10], records as u64);
    zones::put(&mut dst[10..23], b"             ");
}

// The entry of a body, from its 01 and 07, its first line and its number of records. Nothing is written where the lengths are others.
pub fn put_entry(dst: &mut [u8], first: usize, records: usize, opening: &[u8], closing: &[u8])
    ensures { PutEntry first records opening.now closing.now dst.old dst.new }
{
    if dst.len() != ENTRY {
        return;
    }
    if opening.len() != RECORD {
        return;
    }
    if closing.len() != RECORD {
        return;
    }
    put_key(&mut dst[0..25], opening);
    put_dates(&mut dst[25..37], opening, closing);
    put_place(&mut dst[37..60], first, records);
}

// The place, from 0, of the byte that is blank in an unused entry alone.
const USED: usize = 43;

// What an entry says, whatever its bytes: `Ok` where it is used, `Err` where it is not.
fn entry_fields(x: &[u8]) -> Result<Entry, Entry>
    requires { length x.now ≡ entry_size }
    ensures { result ≡ entry_of (fields_of x.now) }
{
    let entry = Entry {
        first: zones::number(&x[37..43]) as usize,
        records: zones::number(&x[43..47]) as usize,
    };
    if x[USED] == b' ' {
        return Err(entry);
    }
    Ok(entry)
}

// The bytes of entry e, from 0. None where there is none.
fn bytes_at(journal: &[u8], e: usize) -> Option<&[u8]>
    ensures { MatchOption result (entry_there journal.now e ≡ false) (λ x. (entry_there journal.now e ≡ true) × (x.now ≡ entry_bytes journal.now e)) }
{
    if MOST_ENTRIES <= e {
        return None;
    }
    let a = ENTRY * e;
    journal.get(a..a + ENTRY)
}

// Entry e, from 0: `Ok` where it is used, `Err` where it is not, with what its digits say all the same; zeros where there is none. Nothing is refused.
pub fn entry_at(journal: &[u8], e: usize) -> Result<Entry, Entry>
    ensures { EntryAt journal.now e result }
{
    match bytes_at(journal, e) {
        Some(x) => entry_fields(x),
        None => Err(Entry {
            first: 0,
            records: 0,
        }),
    }
}

// Entry e, from 0, where it is used.
pub fn used_at(journal: &[u8], e: usize) -> Option<Entry>
    ensures { UsedAt journal.now e result }
{
    entry_at(journal, e).ok()
}

// Key, old date and new date of an entry, the dates as eight digits.
fn put_fields(dst: &mut [u8], x: &[u8])
    requires { (length dst.old ≡ row_size) × (length x.now ≡ entry_size) }
    ensures { dst.new ≡ row_of x.now }
{
    let old_date = dates::read(&x[25..31]).unwrap_or(0);
    let new_date = dates::read(&x[31..37]).unwrap_or(0);
    zones::put(&mut dst[0..25], &x[0..25]);
    zones::put_number(&mut dst[25..33], old_date as u64);
    zones::put_number(&mut dst[33..41], new_date as u64);
}

// The row of entry e, from 0. Nothing is written where the row has another length, or the journal no such entry.
pub fn put_row(dst: &mut [u8], journal: &[u8], e: usize)
    ensures { PutRow journal.now e dst.old dst.new }
{
    if dst.len() != ROW {
        return;
    }
    if let Some(x) = bytes_at(journal, e) {
        put_fields(dst, x);
    }
}

// The body that entry e names, from 0, as a part of the journal. Empty where the entry is unused, or not all its lines are there.
pub fn body_at(journal: &[u8], e: usize) -> &[u8]
    ensures { BodyAt journal.now e result.now }
{
    let Some(x) = used_at(journal, e) else {
        return &journal[..0];
    };
    let a = CONTENTS + RECORD * x.first;
    let z = a + RECORD * x.records;
    if journal.len() < z {
        return &journal[..0];
    }
    &journal[a..z]
}
