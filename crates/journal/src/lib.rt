// The journal: a file delivered to it, the newest statement of an account, and what the crates above read of it. A dry run judges every statement and plans what to store; only a plan without a refusal is written.
#![tactic(auto)]

ghost use Rattle.std.specs.Prelude.{◌≡◌, ◌+◌, ◌*◌, ◌<◌, ◌≤◌, eqb, length, List, ◌∷◌, [], Err};
ghost use Rattle.zones.specs.Choice.{pick};
ghost use Rattle.framing.specs.Files.{line_end};
ghost use Rattle.framing.specs.Refusals.{refusal_by};
ghost use Rattle.framing.specs.declared.refusals.Reason.TheVariants.{NoSuchEntry};
ghost use Rattle.grammar.specs.Statements.{Statement};
ghost use Rattle.grammar.specs.Files.{Reads, statements_of};
ghost use Rattle.grammar.specs.Parts.{size_of};
ghost use Rattle.records.specs.July.{coding_of};
ghost use Rattle.records.specs.Looks.{look_of};
ghost use Rattle.entries.specs.Entries.{most_entries, line_at};
ghost use Rattle.journal.specs.Delivery.{rejection, not_next, is_held, verdict_by};
ghost use Rattle.journal_layout.specs.Test.{held_of};
ghost use Rattle.journal.specs.Newest.{key_size, key_from, newest_among, newest_of, is_account, last_held_from, last_part};
ghost use Rattle.journal.specs.Plans.{part_of, parts_of, Within, Inside, Inside-prop, judged_in, judged_all, Reading, written, written_all, Deliverable, Storable, delivery_of, Planned, Judgeable, Turned, Searchable, number_of, Finds};
ghost use Rattle.journal.specs.Answers.{Delivers, Foretells, NewestPlace, NewestPart, Holds, BodyOf, OfAccount};

use entries::{CONTENTS, ENTRY, MOST_ENTRIES};
use framing::{Form, Reason, Refusal};
use journal_layout::Judgement;
use records::RECORD;

// The bytes of an account key: bank, branch, currency, decimals, account.
pub const KEY: usize = 25;

// How a statement ends: its new date and its new balance.
#[derive(Clone, Copy)]
pub struct Ending {
    pub date: u32,
    pub balance: i64,
}

// Why a delivery is refused, and with `NotNext` what was expected: how the account's last statement ends. With any other reason both numbers are 0, as in the paper's record. An `Option` would tell answers of one record apart, and `deliver_recorded` says of every answer that the record is all of it.
#[derive(Clone, Copy)]
pub struct Rejection {
    pub refusal: Refusal,
    pub expected: Ending,
}

impl From<Refusal> for Rejection {
    ghost from_gives = { λ refusal r. r ≡ rejection refusal };

    // Nothing was expected.
    fn from(refusal: Refusal) -> Rejection {
        Rejection {
            refusal,
            expected: Ending {
                date: 0,
                balance: 0,
            },
        }
    }
}

impl From<Rejection> for Refusal {
    ghost from_gives = { λ rejection r. r ≡ rejection.refusal };

    // Without what was expected.
    fn from(rejection: Rejection) -> Refusal {
        rejection.refusal
    }
}

// How many statements of a file were stored, and how many were held.
#[derive(Clone, Copy)]
pub struct Delivery {
    pub stored: u64,
    pub held: u64,
}

// What becomes of a statement that is not refused: it is held, or to be stored.
#[derive(Clone, Copy)]
pub enum Verdict {
    Hold,
    Store,
}

// Where the newest statement of an account stands: in the journal, without line ends, or in the file, with its line-end number.
#[derive(Clone, Copy)]
pub enum Found {
    InJournal {
        first: usize,
        len: usize,
    },
    InFile {
        first: usize,
        len: usize,
        line_end: u64,
    },
}

// Where a statement stands in its file: its first byte, and the one behind it.
#[derive(Clone, Copy)]
pub struct Bounds {
    pub first: u32,
    pub end: u32,
}

impl Bounds {
    // The statement's bytes.
    fn bytes(self, file: &[u8]) -> &[u8]
        requires { Within self file.now }
        ensures { result.now ≡ part_of self file.now }
    {
        let first = self.first as usize;
        let end = self.end as usize;
        &file[first..end]
    }
}

// Some statements of a file, each within it.
#[derive(Clone, Copy)]
struct Parts<'a> {
    form: Form,
    file: &'a [u8],
    bounds: &'a [Bounds],
    ghost inside: { Inside bounds.now file.now } by { Inside-prop bounds.now file.now },
}

// The statements of a file that a delivery stores, into entries and lines from these on, and how many are held already. Memory is fixed, so the first `count` of an array are the statements.
#[derive(Clone, Copy)]
pub struct Plan {
    pub count: usize,
    pub bounds: [Bounds; MOST_ENTRIES],
    pub entry: usize,
    pub line: usize,
    pub held: u64,
}

impl Plan {
    // What the delivery answers.
    fn delivery(&self) -> Delivery
        ensures { result ≡ delivery_of self.now }
    {
        Delivery {
            stored: self.count as u64,
            held: self.held,
        }
    }
}

// What the planned statements say of another one, behind what the held ones say. Beside `journal_layout::judged` a loop of its own: one over an iterator of bodies would need the iterator's items in its contract and a chain at each caller, for a loop of four lines.
fn judged_planned(last: Judgement, parts: Parts, s: &[u8]) -> Judgement
    ensures { result ≡ judged_in last parts.entry.form (parts_of parts.entry.bounds.now parts.entry.file.now) s.now }
{
    let mut after = last;
    for part in parts.bounds {
        let h = part.bytes(parts.file);
        if bodies::same_records(parts.form, h, parts.form, s) {
            return Judgement::Held;
        }
        after = journal_layout::later(after, parts.form, h, s);
    }
    after
}

fn is_held(judgement: Judgement) -> bool
    ensures { result ≡ is_held judgement }
{
    matches!(judgement, Judgement::Held)
}

// What the held statements, so many, and the planned ones say of another one. The count stands beside the journal, for the reason that `journal_layout::judged` has.
fn judged_all(journal: &[u8], held: usize, parts: Parts, s: &[u8]) -> Judgement
    ensures { result ≡ judged_all journal.now held parts.entry.form (parts_of parts.entry.bounds.now parts.entry.file.now) s.now }
{
    let last = journal_layout::judged(journal, held, parts.form, s);
    if is_held(last) {
        return Judgement::Held;
    }
    judged_planned(last, parts, s)
}

// The statement does not follow. What was expected is what the others say of the account's last one.
fn not_next(judgement: Judgement, record: u64) -> Rejection
    ensures { result ≡ not_next judgement «record» }
{
    let refusal = Reason::NotNext.at(record);
    match judgement {
        Judgement::Held => Rejection::from(refusal),
        Judgement::First => Rejection::from(refusal),
        Judgement::After { date, balance } => {
            Rejection {
                refusal,
                expected: Ending { date, balance },
            }
        }
    }
}

// What becomes of a statement, by what others say of it and the room that is left. Its 01 is this record.
fn verdict_by(
    judgement: Judgement,
    opening: &[u8],
    entries: usize,
    left: usize,
    size: usize,
    record: u64,
) -> Result<Verdict, Rejection>
    ensures { result ≡ verdict_by judgement (look_of opening.now).day (look_of opening.now).amount entries left size «record» }
{
    if is_held(judgement) {
        return Ok(Verdict::Hold);
    }
    let old = records::look_at(opening);
    if !journal_layout::follows(judgement, old.day, old.amount) {
        return Err(not_next(judgement, record));
    }
    if MOST_ENTRIES <= entries {
        return Err(Rejection::from(Reason::FullContents.at(record)));
    }
    if left < size {
        return Err(Rejection::from(Reason::FullJournal.at(record)));
    }
    Ok(Verdict::Store)
}

// What becomes of a statement of the file, beside the held ones, so many, and the planned ones, which leave so many lines.
fn turn(
    journal: &[u8],
    held: usize,
    parts: Parts,
    left: usize,
    part: Bounds,
) -> Result<Verdict, Rejection>
    requires { Judgeable journal.now parts.form parts.file.now parts.bounds.now held left part }
    ensures { Turned journal.now parts.entry.form parts.entry.file.now parts.entry.bounds.now held left part result }
{
    let width = RECORD + parts.form.line_end as usize;
    let s = part.bytes(parts.file);
    let judgement = judged_all(journal, held, parts, s);
    verdict_by(
        judgement,
        contents::record_at(s, 0),
        held + parts.bounds.len(),
        left,
        s.len() / width,
        (part.first as usize / width + 1) as u64,
    )
}

// The statements of an accepted file in turn, on what a sound journal holds and what is planned so far. A `while`: an iterator of the parts would need a type with ghost members and laws, for the one line that moves on.
fn dry_run(journal: &[u8], form: Form, file: &[u8]) -> Result<Plan, Rejection>
    requires { Deliverable journal.now form file.now }
    ensures { Planned journal.now form file.now result }
{
    let free = journal_layout::first_free(journal);
    let lines = (journal.len() - CONTENTS) / RECORD;
    let width = RECORD + form.line_end as usize;
    let mut bounds = [Bounds { first: 0, end: 0 }; MOST_ENTRIES];
    let mut count: usize = 0;
    let mut taken = free.line;
    let mut held: u64 = 0;
    let mut at: usize = 0;
    while at < file.len() {
        let end = readers::statement_end(form, file, at);
        let part = Bounds {
            first: at as u32,
            end: end as u32,
        };
        let parts = Parts {
            form,
            file,
            bounds: &bounds[..count],
        };
        match turn(journal, free.entry, parts, lines - taken, part)? {
            Verdict::Hold => held += 1,
            Verdict::Store => {
                bounds[count] = part;
                count += 1;
                taken += (end - at) / width;
            }
        }
        at = end;
    }
    Ok(Plan {
        count,
        bounds,
        entry: free.entry,
        line: free.line,
        held,
    })
}

// One statement into an entry and the lines from a line on. Its number of records.
fn store(journal: &mut [u8], e: usize, line: usize, form: Form, part: &[u8]) -> usize
    requires { (e < most_entries) × (line_at line ≤ length journal.old) × (line_end form ≤ 2) }
    ensures { (s : Statement) → Reads (coding_of form) form part.now (s ∷ []) → line_at (line + size_of s) ≤ length journal.old → (result ≡ size_of s) × (journal.new ≡ written e line s journal.old) }
{
    let width = RECORD + form.line_end as usize;
    let size = part.len() / width;
    let opening = contents::record_at(part, 0);
    let closing = bodies::closing_of(form, part);
    let a = ENTRY * e;
    let z = a + ENTRY;
    entries::put_entry(&mut journal[a..z], line, size, opening, closing);
    let b = CONTENTS + RECORD * line;
    bodies::put_body(&mut journal[b..], form, part);
    size
}

// The planned parts of a file, into the entries and lines from these on.
fn store_all(journal: &mut [u8], parts: Parts, entry: usize, line: usize)
    requires { Storable journal.old parts.form parts.file.now parts.bounds.now entry line }
    ensures { (ss : List Statement) → Reading parts.entry.form (parts_of parts.entry.bounds.now parts.entry.file.now) ss → journal.new ≡ written_all entry line ss journal.old }
{
    let mut k = line;
    for (p, part) in parts.bounds.iter().enumerate() {
        k += store(journal, entry + p, k, parts.form, part.bytes(parts.file));
    }
}

// Every refusal, or the plan of what to store.
fn planned(journal: &[u8], form: Form, file: &[u8]) -> Result<Plan, Rejection>
    ensures { Planned journal.now form file.now result }
{
    if !journal_layout::sound(journal) {
        return Err(Rejection::from(Reason::UnsoundJournal.at(0)));
    }
    statements::check(form, file)?;
    dry_run(journal, form, file)
}

// A file delivered: its statements are stored, each once, or the whole file is refused and the journal unchanged.
pub fn deliver(journal: &mut [u8], form: Form, file: &[u8]) -> Result<Delivery, Rejection>
    ensures { Delivers journal.old form file.now result journal.new }
{
    let plan = planned(journal, form, file)?;
    let parts = Parts {
        form,
        file,
        bounds: &plan.bounds[..plan.count],
    };
    store_all(journal, parts, plan.entry, plan.line);
    Ok(plan.delivery())
}

// What a delivery of the file now would answer. The journal stays as it is.
pub fn foretold(journal: &[u8], form: Form, file: &[u8]) -> Result<Delivery, Rejection>
    ensures { Foretells journal.now form file.now result }
{
    let plan = planned(journal, form, file)?;
    Ok(plan.delivery())
}

// Whether a record's account is the one that a key names. A key's fields stand elsewhere than a record's, so `records::same_key` cannot compare the two.
fn is_account(key: &[u8; KEY], opening: &[u8]) -> bool
    ensures { result ≡ is_account key.now opening.now }
{
    if opening.len() != RECORD {
        return false;
    }
    zones::same(&opening[2..7], &key[0..5])
        & (zones::same(&opening[11..16], &key[5..10])
            & (zones::same(&opening[16..19], &key[10..13])
                & ((opening[19] == key[13]) & zones::same(&opening[21..32], &key[14..25]))))
}

// The last entry of an account among so many, from 0. A count beside the journal, for the reason that `judged_all` has.
fn last_held(journal: &[u8], count: usize, key: &[u8; KEY]) -> Option<usize>
    ensures { number_of result ≡ last_held_from count 0 0 journal.now key.now }
{
    let mut last = None;
    for e in 0..count {
        if is_account(key, contents::record_at(entries::body_at(journal, e), 0)) {
            last = Some(e);
        }
    }
    last
}

// The last planned statement of an account, from 0. Beside `last_held` a loop of its own, for the reason that `judged_planned` has.
fn last_planned(parts: Parts, key: &[u8; KEY]) -> Option<usize>
    ensures { number_of result ≡ last_part 0 0 (parts_of parts.entry.bounds.now parts.entry.file.now) key.now }
{
    let mut last = None;
    for (p, part) in parts.bounds.iter().enumerate() {
        if is_account(key, contents::record_at(part.bytes(parts.file), 0)) {
            last = Some(p);
        }
    }
    last
}

// The account has no statement, or the key is none.
fn none_found() -> Refusal
    ensures { result ≡ refusal_by NoSuchEntry 0 }
{
    Reason::NoSuchEntry.at(0)
}

// The newest among planned and held statements.
fn newest_planned(journal: &[u8], held: usize, parts: Parts, key: &[u8]) -> Result<Found, Refusal>
    requires { Searchable journal.now parts.form parts.file.now parts.bounds.now held }
    ensures { Finds (pick (eqb (length key.now) key_size) (newest_among parts.entry.form (key_from key.now) (held_of journal.now) (statements_of (coding_of parts.entry.form) parts.entry.form parts.entry.file.now)) (Err (refusal_by NoSuchEntry 0))) journal.now parts.entry.file.now result }
{
    let Ok(key) = <&[u8; KEY]>::try_from(key) else {
        return Err(none_found());
    };
    if let Some(p) = last_planned(parts, key) {
        let part = parts.bounds[p];
        return Ok(Found::InFile {
            first: part.first as usize,
            len: (part.end - part.first) as usize,
            line_end: parts.form.line_end,
        });
    }
    let Some(e) = last_held(journal, held, key) else {
        return Err(none_found());
    };
    let Some(x) = entries::used_at(journal, e) else {
        return Err(none_found());
    };
    Ok(Found::InJournal {
        first: CONTENTS + RECORD * x.first,
        len: RECORD * x.records,
    })
}

// Delivery's refusals first.
fn find_newest(journal: &[u8], form: Form, file: &[u8], key: &[u8]) -> Result<Found, Refusal>
    ensures { Finds (newest_of journal.now form file.now key.now) journal.now file.now result }
{
    let plan = planned(journal, form, file)?;
    let parts = Parts {
        form,
        file,
        bounds: &plan.bounds[..plan.count],
    };
    newest_planned(journal, plan.entry, parts, key)
}

// Where the newest statement of an account stands: the last that a delivery of the file now would store, else the last held. Delivery's refusals, then 25.
pub fn newest_place(journal: &[u8], form: Form, file: &[u8], key: &[u8]) -> Result<Found, Refusal>
    ensures { NewestPlace journal.now form file.now key.now result }
{
    find_newest(journal, form, file, key)
}

// The newest statement of an account, as a part of whichever holds it. Empty on refusal.
pub fn newest<'a>(journal: &'a [u8], form: Form, file: &'a [u8], key: &[u8]) -> &'a [u8]
    ensures { NewestPart journal.now form file.now key.now result.now }
{
    let Ok(found) = find_newest(journal, form, file, key) else {
        return &journal[..0];
    };
    match found {
        Found::InJournal { first, len } => &journal[first..first + len],
        Found::InFile {
            first,
            len,
            line_end: _,
        } => &file[first..first + len],
    }
}

// How many statements a sound journal holds. Whoever has had this asks for bodies without another test.
pub fn held(journal: &[u8]) -> Result<u64, Refusal>
    ensures { Holds journal.now result }
{
    let usage = journal_layout::used(journal)?;
    Ok(usage.entries)
}

// The body of entry e, from 1, as a part of the journal: itself a file of one statement, without line ends. Empty where there is no such entry.
pub fn body(journal: &[u8], e: u64) -> &[u8]
    ensures { BodyOf journal.now e result.now }
{
    if e == 0 {
        return &journal[..0];
    }
    entries::body_at(journal, (e - 1) as usize)
}

// Whether the account of a body is the one that a key names.
pub fn of_account(key: &[u8], body: &[u8]) -> bool
    ensures { OfAccount key.now body.now result }
{
    let Ok(key) = <&[u8; KEY]>::try_from(key) else {
        return false;
    };
    is_account(key, contents::record_at(body, 0))
}
