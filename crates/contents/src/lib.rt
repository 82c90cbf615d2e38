// What a statement of a file holds, by value: its head, one of its movements, one of their complements. On what day a file begins.
// A form and a file stay two parameters: any form goes with any bytes, so a struct of the two would promise nothing.
#![tactic(auto)]

ghost use Rattle.std.specs.Prelude.{◌≡◌, List, ◌∷◌, []};
ghost use Rattle.grammar.specs.Statements.{Statement};
ghost use Rattle.grammar.specs.Files.{Reads, check_of};
ghost use Rattle.records.specs.July.{coding_of};
ghost use Rattle.contents.specs.Heads.{head_among, head_at, statements_in};
ghost use Rattle.contents.specs.Movements.{steps_after, movement_place, Found, movement_among, complement_among};
ghost use Rattle.contents.specs.Earliest.{earlier_of, earliest_of};
ghost use Rattle.contents.specs.Answers.{RecordAt, MovementsIn, HeadOf, MovementOf, ComplementOf, EarliestIn};

use fields::Movement;
use framing::{Form, Reason, Refusal};
use grammar::Key;
use readers::Step;
use records::{RECORD, TEXT};

// The account key, both dates and both balances.
#[repr(C)]
#[derive(Clone, Copy)]
pub struct Head {
    pub key: Key,
    pub old_date: u32,
    pub old_balance: i64,
    pub new_date: u32,
    pub new_balance: i64,
}

// A head with its number of movements.
#[derive(Clone, Copy)]
pub struct Summary {
    pub head: Head,
    pub movements: u64,
}

// The 120 bytes at a place. No bytes where there are not so many.
pub fn record_at(file: &[u8], at: usize) -> &[u8]
    ensures { RecordAt file.now at result.now }
{
    if file.len() < RECORD {
        return &file[..0];
    }
    if file.len() - RECORD < at {
        return &file[..0];
    }
    let e = at + RECORD;
    &file[at..e]
}

// The head that a 01 and a 07 hold.
fn head_at(opening: &[u8], closing: &[u8]) -> Head
    ensures { result ≡ head_at opening.now closing.now }
{
    let old = records::look_at(opening);
    let new = records::look_at(closing);
    Head {
        key: fields::key_at(opening),
        old_date: old.day,
        old_balance: old.amount,
        new_date: new.day,
        new_balance: new.amount,
    }
}

// The number of movements of an accepted part. 0 on refusal, as the contract says, and no `Option`.
pub fn movements_in(form: Form, part: &[u8]) -> u64
    ensures { MovementsIn form part.now result }
{
    match statements::check(form, part) {
        Ok(counts) => counts.movements,
        Err(_) => 0,
    }
}

// The place after so many movements. `readers::after_statements` takes another step: the two loops share a counter alone.
fn after_movements(form: Form, part: &[u8], start: usize, skip: u64) -> usize
    ensures { result ≡ steps_after form part.now skip start }
{
    let mut at = start;
    for _ in 0..skip {
        at = match readers::movement_step(part, form, at) {
            Some(step) => step.next,
            None => part.len(),
        };
    }
    at
}

// A statement's part of a file: a file of that statement alone.
#[derive(Clone, Copy)]
struct Part<'a> {
    form: Form,
    bytes: &'a [u8],
    ghost single: { statements_in (check_of (coding_of form) form bytes.now) ≡ 1 },
}

impl Part<'_> {
    // Its head: the first record is the 01, the last the 07.
    fn head(&self) -> Summary
        ensures { (s : Statement) → Reads (coding_of self.now.form) self.now.form self.now.bytes.now (s ∷ []) → result ≡ head_among s }
    {
        let width = RECORD + self.form.line_end as usize;
        let last = self.bytes.len() - width;
        Summary {
            head: head_at(record_at(self.bytes, 0), record_at(self.bytes, last)),
            movements: movements_in(self.form, self.bytes),
        }
    }

    // The place of movement i.
    fn movement_place(&self, i: u64) -> Option<usize>
        ensures { result ≡ movement_place self.now.form self.now.bytes.now i }
    {
        if i == 0 {
            return None;
        }
        if movements_in(self.form, self.bytes) < i {
            return None;
        }
        let width = RECORD + self.form.line_end as usize;
        Some(after_movements(self.form, self.bytes, width, i - 1))
    }

    // The place of movement i and its step.
    fn found(&self, i: u64) -> Option<(usize, Step)>
        ensures { Found self.now.form self.now.bytes.now i result }
    {
        let at = self.movement_place(i)?;
        let step = readers::movement_step(self.bytes, self.form, at)?;
        Some((at, step))
    }

    fn movement(&self, i: u64) -> Result<Movement, Refusal>
        ensures { (s : Statement) → Reads (coding_of self.now.form) self.now.form self.now.bytes.now (s ∷ []) → result ≡ movement_among s.movements i }
    {
        let Some((at, step)) = self.found(i) else {
            return Err(Reason::NoSuchMovement.at(0));
        };
        Ok(fields::row_at(record_at(self.bytes, at), step.complements))
    }

    fn complement(&self, i: u64, j: u64) -> Result<[u8; TEXT], Refusal>
        ensures { (s : Statement) → Reads (coding_of self.now.form) self.now.form self.now.bytes.now (s ∷ []) → result ≡ complement_among s.movements i j }
    {
        let Some((at, step)) = self.found(i) else {
            return Err(Reason::NoSuchMovement.at(0));
        };
        if (j == 0) | (step.complements < j) {
            return Err(Reason::NoSuchMovement.at(0));
        }
        let width = RECORD + self.form.line_end as usize;
        let r = record_at(self.bytes, at + j as usize * width);
        let mut text = [0u8; TEXT];
        zones::put(&mut text, &r[45..118]);
        Ok(text)
    }
}

// The head of statement k. The whole file is judged first.
pub fn head_of(form: Form, file: &[u8], k: u64) -> Result<Summary, Refusal>
    ensures { HeadOf form file.now k result }
{
    let place = readers::statement_place(form, file, k)?;
    let part = Part {
        form,
        bytes: place.part(file),
    };
    Ok(part.head())
}

// Movement i of statement k. The whole file is judged first.
pub fn movement_of(form: Form, file: &[u8], k: u64, i: u64) -> Result<Movement, Refusal>
    ensures { MovementOf form file.now k i result }
{
    let place = readers::statement_place(form, file, k)?;
    let part = Part {
        form,
        bytes: place.part(file),
    };
    part.movement(i)
}

// Complement j of movement i of statement k, its bytes 46-118. The whole file is judged first.
pub fn complement_of(form: Form, file: &[u8], k: u64, i: u64, j: u64) -> Result<[u8; TEXT], Refusal>
    ensures { ComplementOf form file.now k i j result }
{
    let place = readers::statement_place(form, file, k)?;
    let part = Part {
        form,
        bytes: place.part(file),
    };
    part.complement(i, j)
}

// The earlier of a day that is kept and another. 0 is none kept yet, as in the definition, whose 0 is the answer for no statement too.
fn earlier(kept: u32, day: u32) -> u32
    ensures { result ≡ earlier_of kept day }
{
    if (kept == 0) | (day < kept) {
        return day;
    }
    kept
}

// The earliest old date, with no check of its own. A `while` by the cursor: the next place comes from what stands at this one.
fn earliest_day(form: Form, file: &[u8]) -> u32
    ensures { (ss : List Statement) → Reads (coding_of form) form file.now ss → result ≡ earliest_of ss }
{
    let mut day: u32 = 0;
    let mut at: usize = 0;
    while at < file.len() {
        let opening = records::look_at(record_at(file, at));
        day = earlier(day, opening.day);
        at = readers::statement_end(form, file, at);
    }
    day
}

// On what day a file begins. The whole file is judged first. 0 and no `Option` where it has no statement: the theorems `begins_on` and `earliest_told` say so.
pub fn earliest(form: Form, file: &[u8]) -> Result<u32, Refusal>
    ensures { EarliestIn form file.now result }
{
    statements::check(form, file)?;
    Ok(earliest_day(form, file))
}
