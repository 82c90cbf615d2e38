// The cash desk: the balance in value of an account at the end of each day of a span, on what the journal promises.
#![tactic(auto)]

ghost use Rattle.std.specs.Prelude.{◌≡◌, true, false, ◌∷◌, [], map, ◌-◌, ◌^◌, ◌<◌, length, get_or, pos, nat_abs, ◌+ℤ◌, SomeIff, unwrap_or};
ghost use Rattle.framing.specs.Files.{plain};
ghost use Rattle.zones.specs.Choice.{pick};
ghost use Rattle.dates.specs.Ordinals.{all_days, ordinal_of};
ghost use Rattle.grammar.specs.Statements.{Statement};
ghost use Rattle.grammar.specs.Files.{Reads};
ghost use Rattle.records.specs.July.{coding_of};
ghost use Rattle.records.specs.Looks.{look_of};
ghost use Rattle.contents.specs.Heads.{record_at_of};
ghost use Rattle.journal_layout.specs.Test.{sound_in, held_of};
ghost use Rattle.journal.specs.Newest.{key_from};
ghost use Rattle.journal.specs.Holdings.{body_in, of_account_in};
ghost use Rattle.cash.specs.Value.{movements_of};
ghost use Rattle.cash.specs.Buckets.{dated, dated_in, row_of, bump, filled, running, opened};
ghost use Rattle.cash.specs.Spans.{no_span, later_day};
ghost use Rattle.cash.specs.Calls.{span_from, first_from, Adding, Entering, Filling, Runs, Opening};
ghost use Rattle.cash.specs.Answers.{Positions, PositionNumber, Balance, DayAfter};

use dates::ALL_DAYS;
use fields::Valued;
use framing::{PLAIN, Reason, Refusal};
use records::RECORD;

// Days of the longest span.
const MOST_DAYS: usize = 400;

// The ordinal of a span's first day, and its days, both ends counted.
#[derive(Clone, Copy)]
struct Span {
    from: u32,
    days: usize,
}

// An account's ledger: a sound journal that holds so many statements, and the account's key.
#[derive(Clone, Copy)]
struct Ledger<'a> {
    journal: &'a [u8],
    count: u64,
    key: &'a [u8],
    ghost sound: { sound_in journal.now ≡ true },
    ghost many: { count ≡ length (held_of journal.now) },
}

// Amounts of days, from the day of an ordinal on.
// Each method says too that the first day and the table are still the same, which no type can say of what is lent to change. As functions over a table with the day beside it they would not, and these two always travel together.
#[derive(Drop)]
struct Days<'a> {
    first: u32,
    table: &'a mut [i64],
}

impl Days<'_> {
    // The place of a day; days before the first have its place.
    fn place(&self, day: u32) -> usize
        ensures { result ≡ day - self.now.first }
    {
        day.saturating_sub(self.first) as usize
    }

    // A movement at its day; nothing past the last. A number of no day lies past every day.
    #[tactic(auto, using(dates::proofs::Calendar::ordinal_or, std::proofs::lemmas::List::set_past), unfolding(crate::specs::Buckets::bump))]
    fn add(&mut self, m: Valued)
        requires { let i = ordinal_of m.value - self.old.first in i < length self.old.table.now → nat_abs (get_or self.old.table.now i (pos 0) +ℤ m.amount) < 2 ^ 63 }
        ensures table { self.new.table.now ≡ bump self.old.table.now (ordinal_of m.value - self.old.first) m.amount }
        ensures first { self.new.first ≡ self.old.first }
        ensures same_table { self.new.table.ghost_name ≡ self.old.table.ghost_name }
    {
        let i = self.place(dates::ordinal(m.value).unwrap_or(ALL_DAYS));
        if i < self.table.len() {
            self.table[i] += m.amount;
        }
    }

    // Every movement of a body. They stand behind the 01, one after another; at the 07 there is none. A `while let`: an iterator of the movements would need a type with ghost members and laws, for the one line that moves on.
    fn add_body(&mut self, body: &[u8])
        requires { Adding self.old.table.now self.old.first body.now }
        ensures table { (s : Statement) → Reads (coding_of plain) plain body.now (s ∷ []) → self.new.table.now ≡ filled self.old.first self.old.table.now (dated_in s) }
        ensures first { self.new.first ≡ self.old.first }
        ensures same_table { self.new.table.ghost_name ≡ self.old.table.ghost_name }
    {
        let mut at: usize = RECORD;
        while let Some(step) = readers::movement_step(body, PLAIN, at) {
            self.add(fields::valued_at(contents::record_at(body, at)));
            at = step.next;
        }
    }

    // The same where the body is the account's, else nothing.
    fn add_entry(&mut self, key: &[u8], body: &[u8])
        requires { Entering self.old.table.now self.old.first key.now body.now }
        ensures table { (s : Statement) → Reads (coding_of plain) plain body.now (s ∷ []) → self.new.table.now ≡ pick (of_account_in key.now body.now) (filled self.old.first self.old.table.now (dated_in s)) self.old.table.now }
        ensures first { self.new.first ≡ self.old.first }
        ensures same_table { self.new.table.ghost_name ≡ self.old.table.ghost_name }
    {
        if journal::of_account(key, body) {
            self.add_body(body);
        }
    }
}

// Each number becomes the sum of all up to it.
fn run(table: &mut [i64])
    requires { Runs table.old }
    ensures { table.new ≡ running (pos 0) table.old }
{
    let mut sum: i64 = 0;
    for x in table.iter_mut() {
        sum += *x;
        *x = sum;
    }
}

// The balance at the first day, and nothing at the others.
fn begin(table: &mut [i64], balance: i64)
    requires { 0 < length table.old }
    ensures { table.new ≡ opened balance (length table.old - 1) }
{
    table.fill(0);
    table[0] = balance;
}

// The ordinal of any number, where it is that of a day.
fn ordinal_of(day: u64) -> Option<u32>
    ensures { SomeIff result (ordinal_of day < all_days) (ordinal_of day) }
{
    dates::ordinal(u32::try_from(day).ok()?)
}

// The span from one day to another.
fn span_of(first: u64, last: u64) -> Option<Span>
    ensures { SomeIff result (no_span first last ≡ false) (span_from first last) }
{
    let from = ordinal_of(first)?;
    let to = ordinal_of(last)?;
    if to < from {
        return None;
    }
    let days = (to - from + 1) as usize;
    if MOST_DAYS < days {
        return None;
    }
    Some(Span { from, days })
}

// The old balance of an entry.
fn old_balance(journal: &[u8], e: u64) -> i64
    ensures { result ≡ (look_of (record_at_of (body_in journal.now e) 0)).amount }
{
    let k = records::look_at(contents::record_at(journal::body(journal, e), 0));
    k.amount
}

impl Ledger<'_> {
    // The number of its first entry, from 1. The laws of `find` are of a range without its end, hence no `1..=`.
    fn first_entry(&self) -> Option<u64>
        ensures { let e = first_from self.now.count 0 self.now.journal.now self.now.key.now in SomeIff result (0 < e) e }
    {
        (1..self.count + 1).find(|e| journal::of_account(self.key, journal::body(self.journal, *e)))
    }

    // Every movement, at its day.
    fn fill(&self, days: &mut Days)
        requires { Filling days.old.table.now days.old.first self.now.journal.now self.now.key.now }
        ensures same_table { days.new.table.ghost_name ≡ days.old.table.ghost_name }
        ensures table { days.new.table.now ≡ filled days.old.first days.old.table.now (map dated (movements_of (key_from self.now.key.now) (held_of self.now.journal.now))) }
    {
        for e in 1..=self.count {
            days.add_entry(self.key, journal::body(self.journal, e));
        }
    }

    // The amounts for as many days as the table has, from an ordinal on.
    // Not given as `Days`: the proof does not close, since of `&mut table[..n]` in a struct only the length is known when it comes back.
    fn row(&self, table: &mut [i64], balance: i64, first: u32)
        requires { (0 < length table.old) × Opening balance self.now.journal.now self.now.key.now }
        ensures { table.new ≡ row_of balance (map dated (movements_of (key_from self.now.key.now) (held_of self.now.journal.now))) first (length table.old) }
    {
        begin(table, balance);
        let mut days = Days { first, table };
        self.fill(&mut days);
        run(table);
    }

    // The position: no such span, then no such entry, then too short a table.
    fn position(&self, first: u64, last: u64, table: &mut [i64]) -> Result<u64, Refusal>
        ensures { Positions self.now.journal.now self.now.key.now first last table.old result table.new }
    {
        let Some(span) = span_of(first, last) else {
            return Err(Reason::NoSpan.at(0));
        };
        let Some(e) = self.first_entry() else {
            return Err(Reason::NoSuchEntry.at(0));
        };
        if table.len() < span.days {
            return Err(Reason::ShortTable.at(0));
        }
        let balance = old_balance(self.journal, e);
        self.row(&mut table[..span.days], balance, span.from);
        Ok(span.days as u64)
    }
}

// The balance in value of an account at the end of each day of a span, in the first numbers of a lent table; how many days were filled. On refusal no number changes.
pub fn position(
    journal: &[u8],
    key: &[u8],
    first: u64,
    last: u64,
    table: &mut [i64],
) -> Result<u64, Refusal>
    ensures { Positions journal.now key.now first last table.old result table.new }
{
    let count = journal::held(journal)?;
    let ledger = Ledger {
        journal,
        count,
        key,
    };
    ledger.position(first, last, table)
}

// The number of days filled, as one number.
pub fn crownhazel_position(
    journal: &[u8],
    key: &[u8],
    first: u64,
    last: u64,
    table: &mut [i64],
) -> u64
    ensures { PositionNumber journal.now key.now first last table.old result table.new }
{
    position(journal, key, first, last, table).map_or_else(
        packing::refusal,
        |days| packing::answered(days, 0, 0),
    )
}

// The new balance of an entry, without the sound test: 0 where there is no entry, by the C interface.
#[tactic(auto, unfolding(crate::specs::Positions::balance_in))]
pub fn crownhazel_balance(journal: &[u8], entry: u64) -> i64
    ensures { Balance journal.now entry result }
{
    let body = journal::body(journal, entry);
    let k = records::look_at(bodies::closing_of(PLAIN, body));
    k.amount
}

// The day so many days after a day.
fn later_day(day: u64, after: u64) -> Option<u32>
    ensures { unwrap_or result 0 ≡ later_day day after }
{
    let from = ordinal_of(day)?;
    let days = u32::try_from(after).ok()?;
    dates::of_ordinal(from.checked_add(days)?)
}

// The same as a number: 0 for none, by the C interface.
pub fn crownhazel_day(day: u64, after: u64) -> u64
    ensures { DayAfter day after result }
{
    u64::from(later_day(day, after).unwrap_or(0))
}
