// The check of a file in one pass over its records.
#![tactic(auto)]

ghost use Rattle.std.specs.Prelude.{◌≡◌, ◌≤◌, length, take, nat_abs};
ghost use Rattle.amounts.specs.Amounts.{most_amount};
ghost use Rattle.framing.specs.Files.{chunks};
ghost use Rattle.grammar.specs.Machine.{judge_of, scan as scanOf};
ghost use Rattle.grammar.specs.Rules.{start, differs as differsOf};
ghost use Rattle.grammar.specs.Files.{files};
ghost use Rattle.records.specs.July.{most_in_file, record_size, decode_record, coding_of};
ghost use Rattle.records.specs.Looks.{kind_of, look_of};
ghost use Rattle.statements.specs.Progress.{Small, opened_of, moved_of, added_of, closed_of, mode_of, flags_of, state_of, after_movement, next_of, begin, Inside, Fit, Sized};
ghost use Rattle.statements.specs.Answers.{reason_in, checked_of, Check};

use framing::{Form, Frame, Reason, Refusal};
use records::rules::LastMovement;
use records::{Kind, Look, MOST_IN_FILE, RECORD, rules};

// How many statements, movements and complements a file holds.
#[derive(Clone, Copy, PartialEq, Eq)]
pub struct Counts {
    pub statements: u64,
    pub movements: u64,
    pub complements: u64,
}

// Running totals: counts, and the balance of the open statement. Each record takes them and hands them back.
// That they are small stands at each method: as a ghost field it was tried, but a struct that has one takes no `..`, and each definition that builds totals would need a proof of it. As one function without methods it would stand once, but methods by value are the paper's form.
#[derive(Clone, Copy)]
struct Totals {
    statements: u64,
    movements: u64,
    complements: u64,
    balance: i64,
}

impl Totals {
    fn opened(self, balance: i64) -> Totals
        ensures { result ≡ opened_of self balance }
    {
        Totals { balance, ..self }
    }

    fn moved(self, amount: i64) -> Totals
        requires { Small most_in_file self × (nat_abs amount ≤ most_amount) }
        ensures { result ≡ moved_of self amount }
    {
        Totals {
            movements: self.movements + 1,
            balance: self.balance + amount,
            ..self
        }
    }

    fn added(self) -> Totals
        requires { Small most_in_file self }
        ensures { result ≡ added_of self }
    {
        Totals {
            complements: self.complements + 1,
            ..self
        }
    }

    fn closed(self) -> Totals
        requires { Small most_in_file self }
        ensures { result ≡ closed_of self }
    {
        Totals {
            statements: self.statements + 1,
            ..self
        }
    }
}

// What is kept from record to record: the places of the open 01 and of the last 04 in the file, and numbers.
// size: the records of the open statement, 0 where none is open. A count and no `Option`: the rules compare it as a number.
#[derive(Clone, Copy)]
struct Progress {
    opening: usize,
    mark: usize,
    size: u64,
    movement: LastMovement,
    old: u32,
    latest: u32,
    totals: Totals,
}

impl Progress {
    fn new() -> Progress
        ensures { result ≡ begin }
    {
        Progress {
            opening: 0,
            mark: 0,
            size: 0,
            movement: LastMovement::Absent,
            old: 0,
            latest: 0,
            totals: Totals {
                statements: 0,
                movements: 0,
                complements: 0,
                balance: 0,
            },
        }
    }

    // 10: the key of the open 01, or what a 05 repeats of the last 04, differs. Only the one that the rule looks at is compared.
    fn differs(self, file: &[u8], r: &[u8; RECORD], kind: Kind) -> bool
        requires { Inside (length file.now) self × (kind_of r.now ≡ Some kind) }
        ensures { result ≡ differsOf (mode_of (flags_of file.now self)) (decode_record r.now) }
    {
        if self.size == 0 {
            return false;
        }
        match kind {
            Kind::Opening => false,
            Kind::Complement if self.movement == LastMovement::Absent => false,
            Kind::Complement => !records::same_front(&file[self.mark..self.mark + RECORD], r),
            Kind::Movement | Kind::Closing => {
                !records::same_key(&file[self.opening..self.opening + RECORD], r)
            }
        }
    }

    // The first reason of the list that applies to a record with its line end.
    fn judge(self, form: Form, file: &[u8], piece: &[u8], k: Look) -> Option<Reason>
        requires { Fit form (length file.now) (length piece.now) self × (k ≡ look_of (take record_size piece.now)) }
        ensures { result ≡ reason_in (judge_of (files (coding_of form) form) (state_of file.now self) piece.now) }
    {
        if framing::wrong_end(form, &piece[RECORD..]) {
            return Some(Reason::WrongLineEnd);
        }
        if !k.permitted {
            return Some(Reason::ForbiddenByte);
        }
        let Some(kind) = k.kind else {
            return Some(Reason::UnknownCode);
        };
        let code = u8::from(kind);
        let movement = u8::from(self.movement);
        if rules::misplaced(self.size, movement, code) {
            return Some(Reason::OutOfPlace);
        }
        if k.misfit {
            return Some(Reason::WrongZone);
        }
        if k.undated {
            return Some(Reason::NoSuchDate);
        }
        if self.differs(file, piece.first_chunk().unwrap(), kind) {
            return Some(Reason::OtherKey);
        }
        if rules::second_mmo(self.size, movement, code, k.mmo) {
            return Some(Reason::SecondMmo);
        }
        if rules::misdated(self.size, code, k.day, self.old, self.latest) {
            return Some(Reason::DatesOutOfOrder);
        }
        let right = rules::same_balance(self.totals.balance, k.amount);
        if rules::unsummed(self.size, code, right) {
            return Some(Reason::WrongSum);
        }
        if rules::too_long(self.size) {
            return Some(Reason::TooLongStatement);
        }
        None
    }

    // What is kept after a 04.
    fn after_movement(self, at: usize, k: Look) -> Progress
        requires { Small most_in_file self.totals × (self.size ≤ most_in_file) × (nat_abs k.amount ≤ most_amount) }
        ensures { result ≡ after_movement self at k }
    {
        Progress {
            mark: at,
            size: self.size + 1,
            movement: LastMovement::Plain,
            latest: self.latest.max(k.day),
            totals: self.totals.moved(k.amount),
            ..self
        }
    }

    // What is kept after a record to which no rule applies.
    fn taken(self, at: usize, k: Look) -> Progress
        requires { Small most_in_file self.totals × (self.size ≤ most_in_file) × (nat_abs k.amount ≤ most_amount) }
        ensures { result ≡ next_of self at k }
    {
        match k.kind.unwrap_or(Kind::Closing) {
            Kind::Opening => Progress {
                opening: at,
                size: 1,
                movement: LastMovement::Absent,
                old: k.day,
                latest: k.day,
                totals: self.totals.opened(k.amount),
                ..self
            },
            Kind::Movement => self.after_movement(at, k),
            Kind::Complement => Progress {
                size: self.size + 1,
                movement: if k.mmo {
                    LastMovement::WithMmo
                } else {
                    self.movement
                },
                totals: self.totals.added(),
                ..self
            },
            Kind::Closing => Progress {
                size: 0,
                movement: LastMovement::Absent,
                totals: self.totals.closed(),
                ..self
            },
        }
    }
}

// The records of a file one after another, as its frame cuts it.
fn scan(form: Form, frame: Frame, file: &[u8]) -> Result<Counts, Refusal>
    requires { Sized form frame.width frame.count (length file.now) }
    ensures { result ≡ checked_of (scanOf (files (coding_of form) form) 0 start (chunks frame.width frame.count file.now)) }
{
    let mut p = Progress::new();
    for (i, piece) in file.chunks_exact(frame.width).enumerate() {
        let k = records::look_at(&piece[..RECORD]);
        if let Some(reason) = p.judge(form, file, piece, k) {
            return Err(reason.at(i as u64 + 1));
        }
        p = p.taken(i * frame.width, k);
    }
    if p.size == 0 {
        Ok(Counts {
            statements: p.totals.statements,
            movements: p.totals.movements,
            complements: p.totals.complements,
        })
    } else {
        Err(Reason::OpenStatement.at(frame.count as u64))
    }
}

// How many statements, movements and complements a file has; or which refusal, and at which record.
pub fn check(form: Form, file: &[u8]) -> Result<Counts, Refusal>
    ensures { Check form file.now result }
{
    let frame = framing::cut(form, RECORD as u16, MOST_IN_FILE, file)?;
    scan(form, frame, file)
}
