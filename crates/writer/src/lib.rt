// The writer of one statement: head, rows and complements into a lent output. The rows are tested first, then written.
#![tactic(auto)]

ghost use Rattle.std.specs.Prelude.{◌≡◌, ◌*◌, ◌/◌, length};
ghost use Rattle.std.proofs.Math.Bool.Bool.{true, false};
ghost use Rattle.framing.specs.Files.{chunks};
ghost use Rattle.records.specs.July.{record_size, text_size};
ghost use Rattle.writer.specs.Test.{texts_hold, begun, booked_within, reckoned, tally_of, tallied, complete};
ghost use Rattle.writer.specs.Steps.{plan_of, texts_put, group_put, group_size, placed, spot_of, row_put, rows_put, first_spot, ends_put};
ghost use Rattle.writer.specs.Answers.{WriteStatement};

use contents::Head;
use fields::Movement;
use framing::{Reason, Refusal};
use grammar::Key;
use records::{MOST_IN_STATEMENT, RECORD, TEXT};

// The bytes of the 01 and the 07, which every statement has.
const ENDS: usize = 2 * RECORD;

// A running balance as far as this is reckoned with: the next one fits 64 bits.
const MOST_BALANCE: u64 = 1000000000000000000;

// What the rows tested so far give where all fits: the number of records, the balance, and the place in the complements.
#[derive(Clone, Copy)]
struct Tally {
    records: u64,
    balance: i64,
    from: usize,
}

// Where the next row stands in the output, and its texts in the complements.
#[derive(Clone, Copy)]
struct Spot {
    at: usize,
    from: usize,
}

// Whether these texts can stand in the 05 of one movement: each for itself, and at most one MMO. A flag and no early exit: a text that does not fit is rare.
fn texts_fit(texts: &[u8]) -> bool
    ensures { result ≡ texts_hold true false (chunks text_size (length texts.now / text_size) texts.now) }
{
    let mut ok = true;
    let mut seen = false;
    for text in texts.chunks_exact(TEXT) {
        let mmo = writing::is_mmo(text);
        ok = ok & (writing::text_fits(text) & !(seen & mmo));
        seen = seen | mmo;
    }
    ok
}

// Before the rows, where a 01 and a 07 can hold the head. Both are counted.
#[tactic(auto, unfolding(crate::specs::Test::begun))]
fn begin(head: Head) -> Option<Tally>
    ensures { result ≡ begun head }
{
    if !(writing::balance_fits(head.key, head.old_date, head.old_balance)
        & (writing::balance_fits(head.key, head.new_date, head.new_balance)
            & (head.old_date <= head.new_date)))
    {
        return None;
    }
    Some(Tally {
        records: 2,
        balance: head.old_balance,
        from: 0,
    })
}

fn booked_within(head: Head, m: Movement) -> bool
    ensures { result ≡ booked_within head m }
{
    (head.old_date <= m.booked) & (m.booked <= head.new_date)
}

impl Tally {
    // Whether the next numbers can be reckoned without overflow. They can, wherever values fit.
    fn reckons(self, m: Movement, len: usize) -> bool
        ensures { result ≡ reckoned self m len }
    {
        ((self.records <= MOST_IN_STATEMENT) & (m.complements <= MOST_IN_STATEMENT))
            & ((amounts::absolute(self.balance) <= MOST_BALANCE) & (self.from <= len))
    }

    // A row more, where it fits.
    #[tactic(auto, unfolding(crate::specs::Test::tally_of))]
    fn with(self, head: Head, m: Movement, complements: &[u8]) -> Option<Tally>
        ensures { result ≡ tally_of head self m complements.now }
    {
        let len = complements.len();
        if !(writing::row_fits(head.key, m) & (booked_within(head, m) & self.reckons(m, len))) {
            return None;
        }
        let size = m.complements as usize * TEXT;
        let records = self.records + 1 + m.complements;
        if !((records <= MOST_IN_STATEMENT) & (size <= len - self.from)) {
            return None;
        }
        let end = self.from + size;
        if !texts_fit(&complements[self.from..end]) {
            return None;
        }
        Some(Tally {
            records,
            balance: self.balance + m.amount,
            from: end,
        })
    }

    // Whether the records are within the limit of a statement, no byte of the complements is left after the rows, and the sum is right.
    fn completes(self, head: Head, len: usize) -> bool
        ensures { result ≡ complete head self len }
    {
        (self.records <= MOST_IN_STATEMENT)
            & ((self.from == len) & records::rules::same_balance(self.balance, head.new_balance))
    }
}

// How many bytes are to be written; 19, then 20.
#[tactic(auto, unfolding(crate::specs::Steps::plan_of))]
fn plan(head: Head, s: Option<Tally>, len: usize, room: usize) -> Result<usize, Refusal>
    ensures { result ≡ plan_of head s len room }
{
    let Some(s) = s else {
        return Err(Reason::NoSuchFile.at(0));
    };
    if !s.completes(head, len) {
        return Err(Reason::NoSuchFile.at(0));
    }
    let bytes = s.records as usize * RECORD;
    if room < bytes {
        return Err(Reason::ShortOutput.at(0));
    }
    Ok(bytes)
}

// The texts of a movement, each into its part of 120 bytes.
fn put_texts(out: &mut [u8], key: Key, m: Movement, texts: &[u8])
    requires { (length out.old ≡ m.complements * record_size) × (length texts.now ≡ m.complements * text_size) }
    ensures { out.new ≡ texts_put key m (chunks text_size m.complements texts.now) out.old }
{
    // By index: the kit's proofs know no byte written through `chunks_exact_mut`.
    for (i, text) in texts.chunks_exact(TEXT).enumerate() {
        let at = i * RECORD;
        writing::put_complement(&mut out[at..at + RECORD], key, m, text);
    }
}

// A movement and its complements into a part as long as their records.
#[tactic(auto, using(crate::proofs::Groups::group_put_lem))]
fn put_group(out: &mut [u8], key: Key, m: Movement, texts: &[u8])
    requires { (length out.old ≡ group_size m) × (length texts.now ≡ m.complements * text_size) }
    ensures { out.new ≡ group_put key m (chunks text_size m.complements texts.now) out.old }
{
    writing::put_movement(&mut out[0..RECORD], key, m);
    put_texts(&mut out[RECORD..], key, m, texts);
}

// The bytes to write, the complements and the room stay beside the spot: they are the same for every row, and a struct of them would be unpacked in both methods, so no plainer.
impl Spot {
    // Whether a row's place can be reckoned without overflow.
    fn reckons(self, bytes: usize, m: Movement, len: usize, room: usize) -> bool
        ensures { result ≡ placed bytes m len room self }
    {
        ((m.complements <= MOST_IN_STATEMENT) & (bytes <= room))
            & ((self.at <= bytes) & (self.from <= len))
    }

    // A row with its complements, where there is room for it; and where the next one stands.
    #[tactic(auto, unfolding(crate::specs::Steps::spot_of, crate::specs::Steps::row_put))]
    fn put(self, out: &mut [u8], bytes: usize, key: Key, m: Movement, complements: &[u8]) -> Spot
        ensures { (result ≡ spot_of bytes m (length complements.now) (length out.old) self)
            × (out.new ≡ row_put bytes key m complements.now self out.old) }
    {
        let len = complements.len();
        if !self.reckons(bytes, m, len, out.len()) {
            return self;
        }
        let n = m.complements as usize;
        let size = (1 + n) * RECORD;
        let texts = n * TEXT;
        if !((size <= bytes - self.at) & (texts <= len - self.from)) {
            return self;
        }
        let end = self.at + size;
        let stop = self.from + texts;
        put_group(
            &mut out[self.at..end],
            key,
            m,
            &complements[self.from..stop],
        );
        Spot {
            at: end,
            from: stop,
        }
    }
}

// The 01 before the rows, the 07 after them.
#[tactic(auto, unfolding(crate::specs::Steps::ends_put))]
fn put_ends(out: &mut [u8], bytes: usize, head: Head)
    ensures { out.new ≡ ends_put bytes head out.old }
{
    if !((ENDS <= bytes) & (bytes <= out.len())) {
        return;
    }
    let last = bytes - RECORD;
    writing::put_opening(
        &mut out[0..RECORD],
        head.key,
        head.old_date,
        head.old_balance,
    );
    writing::put_closing(
        &mut out[last..bytes],
        head.key,
        head.new_date,
        head.new_balance,
    );
}

// The rows tested, one after another.
#[tactic(auto, using(crate::proofs::Folded::tally_step, crate::proofs::Folded::tally_over, crate::proofs::Folded::tally_none, crate::proofs::Folded::tally_stop))]
fn test_rows(head: Head, table: &[Movement], complements: &[u8]) -> Option<Tally>
    ensures { result ≡ tallied head (begun head) table.now complements.now }
{
    let mut s = begin(head)?;
    for m in table {
        s = s.with(head, *m, complements)?;
    }
    Some(s)
}

// The rows written, one after another, each with its complements.
#[tactic(auto, using(crate::proofs::Folded::put_step, crate::proofs::Folded::put_over))]
fn put_rows(out: &mut [u8], bytes: usize, key: Key, table: &[Movement], complements: &[u8])
    ensures { out.new ≡ rows_put bytes key table.now complements.now first_spot out.old }
{
    let mut spot = Spot {
        at: RECORD,
        from: 0,
    };
    for m in table {
        spot = spot.put(out, bytes, key, *m, complements);
    }
}

// Writes a statement: head, a row for each movement, and the complements, 73 bytes each, one after another. No line ends. How many bytes; those after them are untouched, and all on refusal.
#[tactic(auto, using(crate::proofs::Written::not_wrote))]
pub fn write_statement(
    head: Head,
    table: &[Movement],
    complements: &[u8],
    out: &mut [u8],
) -> Result<usize, Refusal>
    ensures { WriteStatement head table.now complements.now out.old result out.new }
{
    let s = test_rows(head, table, complements);
    let bytes = plan(head, s, complements.len(), out.len())?;
    put_ends(out, bytes, head);
    put_rows(out, bytes, head.key, table, complements);
    Ok(bytes)
}
