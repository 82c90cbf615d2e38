// The journal's bytes: what held statements say of another, the test for a sound journal, how much of it is used, opening, and the entries' bodies.
#![tactic(auto)]

ghost use Rattle.std.specs.Prelude.{◌≡◌, ◌+◌, ◌*◌, ◌<◌, ◌≤◌, length, replicate};
ghost use Rattle.zones.specs.Copy.{same_bytes};
ghost use Rattle.records.specs.July.{record_size};
ghost use Rattle.entries.specs.Entries.{most_entries, entry_size, table_size, line_at, entry_put};
ghost use Rattle.journal_layout.specs.Layout.{most_lines, is_length};
ghost use Rattle.journal_layout.specs.Test.{fits_in, rest_blank, walk_in, numbered, unused_from};
ghost use Rattle.journal_layout.specs.Answers.{Later, FollowsOn, Judged, Sound, FirstFree, UsedOf, Opens, EntryPlace, ListedPlace, EntryBody};

use entries::{CONTENTS, ENTRY, Entry, MOST_ENTRIES};
use framing::{Form, PLAIN, Reason, Refusal};
use readers::Place;
use records::RECORD;

// The most body lines of a journal.
const MOST_LINES: usize = 100000;

// The bytes of the longest journal.
const MOST_BYTES: usize = CONTENTS + RECORD * MOST_LINES;

// A statement beside the held ones: held itself, the first of its account, or after another, whose new date and new balance these are.
#[derive(Clone, Copy)]
pub enum Judgement {
    Held,
    First,
    After { date: u32, balance: i64 },
}

// The first unused entry, from 0, and the first line behind the bodies.
#[derive(Clone, Copy)]
pub struct Free {
    pub entry: usize,
    pub line: usize,
}

// The statements held, the body lines that they take, and the body lines in all.
#[derive(Clone, Copy, PartialEq, Eq)]
pub struct Usage {
    pub entries: u64,
    pub used: u64,
    pub lines: u64,
}

// The last statement of an account: h, where its account is that of s, else the last before it.
pub fn later(last: Judgement, form: Form, h: &[u8], s: &[u8]) -> Judgement
    ensures { Later last form h.now s.now result }
{
    if !records::same_key(contents::record_at(h, 0), contents::record_at(s, 0)) {
        return last;
    }
    let k = records::look_at(bodies::closing_of(form, h));
    Judgement::After {
        date: k.day,
        balance: k.amount,
    }
}

// Whether a statement with this old date and old balance follows.
pub fn follows(judgement: Judgement, date: u32, balance: i64) -> bool
    ensures { FollowsOn judgement date balance result }
{
    match judgement {
        Judgement::Held => false,
        Judgement::First => true,
        Judgement::After {
            date: d,
            balance: b,
        } => (d <= date) & records::rules::same_balance(b, balance),
    }
}

// What the first entries of a journal, so many, say of a statement. The count stands beside the journal: its entries are the journal's, and the count is what of them is used.
pub fn judged(journal: &[u8], count: usize, form: Form, s: &[u8]) -> Judgement
    ensures { Judged journal.now count form s.now result }
{
    let mut last = Judgement::First;
    for e in 0..count {
        let h = entries::body_at(journal, e);
        if bodies::same_records(PLAIN, h, form, s) {
            return Judgement::Held;
        }
        last = later(last, PLAIN, h, s);
    }
    last
}

// Whether these bytes are the entry of so many records from a line on, with this 01 and this 07.
fn is_entry(x: &[u8], first: usize, records: usize, opening: &[u8], closing: &[u8]) -> bool
    ensures { result ≡ same_bytes x.now (entry_put first records opening.now closing.now (replicate entry_size 32)) }
{
    let mut want = [b' '; ENTRY];
    entries::put_entry(&mut want, first, records, opening, closing);
    zones::same(x, &want)
}

// Whether entry e is right behind the entries before it. Its body is the n lines from line k on.
fn fits(journal: &[u8], e: usize, k: usize, n: usize) -> bool
    requires { (e < most_entries) × (line_at k + record_size * n ≤ length journal.now) }
    ensures { result ≡ fits_in journal.now e k n }
{
    let a = CONTENTS + RECORD * k;
    let z = a + RECORD * n;
    let s = &journal[a..z];
    if !bodies::is_single(s) {
        return false;
    }
    let opening = contents::record_at(s, 0);
    let closing = bodies::closing_of(PLAIN, s);
    let b = ENTRY * e;
    let y = b + ENTRY;
    if !is_entry(&journal[b..y], k, n, opening, closing) {
        return false;
    }
    let old = records::look_at(opening);
    follows(judged(journal, e, PLAIN, s), old.day, old.amount)
}

// Whether all is blank from entry e on, and from line k on.
fn rest_blank(journal: &[u8], e: usize, k: usize) -> bool
    requires { (e ≤ most_entries) × (line_at k ≤ length journal.now) }
    ensures { result ≡ rest_blank journal.now e k }
{
    let a = ENTRY * e;
    let b = CONTENTS + RECORD * k;
    zones::blanks(&journal[a..CONTENTS]) & zones::blanks(&journal[b..])
}

// The entries one after another. The body of entry e begins at line k.
fn walk(journal: &[u8]) -> bool
    requires { (table_size ≤ length journal.now) × (length journal.now ≤ line_at most_lines) }
    ensures { result ≡ walk_in most_entries 0 0 journal.now }
{
    let mut k: usize = 0;
    for e in 0..MOST_ENTRIES {
        let Some(x) = entries::used_at(journal, e) else {
            return rest_blank(journal, e, k);
        };
        let n = x.records;
        if journal.len() < CONTENTS + RECORD * k + RECORD * n {
            return false;
        }
        if !fits(journal, e, k, n) {
            return false;
        }
        k += n;
    }
    rest_blank(journal, MOST_ENTRIES, k)
}

fn is_length(n: usize) -> bool
    ensures { result ≡ is_length n }
{
    (CONTENTS <= n) & (n <= MOST_BYTES) & (n % RECORD == 0)
}

// Whether a journal is sound. Linear in its bytes, and in the comparisons of each body with those before it.
pub fn sound(journal: &[u8]) -> bool
    ensures { Sound journal.now result }
{
    if !is_length(journal.len()) {
        return false;
    }
    walk(journal)
}

fn first_unused(journal: &[u8]) -> usize
    ensures { result ≡ unused_from most_entries 0 journal.now }
{
    (0..MOST_ENTRIES)
        .find(|e| entries::used_at(journal, *e).is_none())
        .unwrap_or(MOST_ENTRIES)
}

// Entry e, from 1. None where it is unused, or there is none.
fn numbered(journal: &[u8], e: usize) -> Option<Entry>
    ensures { result ≡ numbered journal.now e }
{
    entries::used_at(journal, e.checked_sub(1)?)
}

// Where the next statement goes in a sound journal.
pub fn first_free(journal: &[u8]) -> Free
    ensures { FirstFree journal.now result }
{
    let entry = first_unused(journal);
    match numbered(journal, entry) {
        Some(x) => Free {
            entry,
            line: x.first + x.records,
        },
        None => Free { entry, line: 0 },
    }
}

// How much of a sound journal is used.
pub fn used(journal: &[u8]) -> Result<Usage, Refusal>
    ensures { UsedOf journal.now result }
{
    if !sound(journal) {
        return Err(Reason::UnsoundJournal.at(0));
    }
    let free = first_free(journal);
    Ok(Usage {
        entries: free.entry as u64,
        used: free.line as u64,
        lines: ((journal.len() - CONTENTS) / RECORD) as u64,
    })
}

// Blanks any buffer of a right length.
pub fn open(journal: &mut [u8]) -> Result<(), Refusal>
    ensures { Opens journal.old result journal.new }
{
    if !is_length(journal.len()) {
        return Err(Reason::UnsoundJournal.at(0));
    }
    journal.fill(b' ');
    Ok(())
}

// Where the body of entry e stands, from 1.
pub fn entry_place(journal: &[u8], e: u64) -> Result<Place, Refusal>
    ensures { EntryPlace journal.now e result }
{
    if !sound(journal) {
        return Err(Reason::UnsoundJournal.at(0));
    }
    listed_place(journal, e)
}

// The same without the sound test, so that whoever has just had it need not pay it for each entry. It says what stands there.
pub fn listed_place(journal: &[u8], e: u64) -> Result<Place, Refusal>
    ensures { ListedPlace journal.now e result }
{
    if !is_length(journal.len()) {
        return Err(Reason::UnsoundJournal.at(0));
    }
    let Some(x) = numbered(journal, e as usize) else {
        return Err(Reason::NoSuchEntry.at(0));
    };
    let first = CONTENTS + RECORD * x.first;
    let len = RECORD * x.records;
    if journal.len() < first + len {
        return Err(Reason::NoSuchEntry.at(0));
    }
    Ok(Place { first, len })
}

// The body of entry e as a part of the journal: itself a file of one statement, without line ends. Empty on refusal.
pub fn entry(journal: &[u8], e: u64) -> &[u8]
    ensures { EntryBody journal.now e result.now }
{
    match entry_place(journal, e) {
        Ok(place) => &journal[place.first..place.first + place.len],
        Err(_) => &journal[..0],
    }
}
