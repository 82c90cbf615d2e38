// One record of a file: its kind, whether it fits its layout, and the values that the rules look at. A record is looked at where it stands, never copied.
#![tactic(auto)]

ghost use Rattle.std.specs.Prelude.{◌≡◌, []};
ghost use Rattle.zones.specs.Class.{digit, blank, permitted, alnum, all};
ghost use Rattle.std.proofs.Math.Bool.Bool.{true};
ghost use Rattle.amounts.specs.Amounts.{is_amount};
ghost use Rattle.dates.specs.Days.{date_of};
ghost use Rattle.layouts.specs.Zone.{part, zoned, dated, run, is_date, blanks, text};
ghost use Rattle.records.specs.Layouts.{front, layout01, layout04, layout05, layout_mmo};
ghost use Rattle.records.specs.July.{is_mmo, layout_for};
ghost use Rattle.records.specs.Looks.{kind_of, judged_as, either_of, code_of};
ghost use Rattle.records.specs.Answers.{LookAt, SameKey, SameFront};

pub mod rules;

// The bytes of a record.
pub const RECORD: usize = 120;

// The most records of a file.
pub const MOST_IN_FILE: u32 = 20000;

// The most records of a statement.
pub const MOST_IN_STATEMENT: u64 = 9999;

// The bytes of a complement's text: the qualifier and the information of a 05.
pub const TEXT: usize = 73;

// The kind of a record, by its code: 01, 04, 05 and 07.
#[derive(Clone, Copy, PartialEq, Eq)]
pub enum Kind {
    Opening = 1,
    Movement = 4,
    Complement = 5,
    Closing = 7,
}

// Its code as a number.
impl From<Kind> for u8 {
    ghost from_gives = { λ kind n. n ≡ code_of kind };

    fn from(kind: Kind) -> u8 {
        kind as u8
    }
}

// What the check needs to know of a record. A record of an unknown code has no kind. A date or an amount that does not exist is 0, and a record that should have it undated or misfit: the readers take both numbers from any record, as `LookAt` says.
#[derive(Clone, Copy)]
pub struct Look {
    pub kind: Option<Kind>,
    pub misfit: bool,
    pub undated: bool,
    pub day: u32,
    pub amount: i64,
    pub mmo: bool,
    pub permitted: bool,
}

// None is 6: unknown record code.
fn kind_of(r: &[u8; RECORD]) -> Option<Kind>
    ensures { result ≡ kind_of r.now }
{
    if r[0] != b'0' {
        return None;
    }
    match r[1] {
        b'1' => Some(Kind::Opening),
        b'4' => Some(Kind::Movement),
        b'5' => Some(Kind::Complement),
        b'7' => Some(Kind::Closing),
        _ => None,
    }
}

fn mmo(r: &[u8; RECORD]) -> bool
    ensures { result ≡ is_mmo (part 46 118 r.now) }
{
    zones::same(b"MMO", &r[45..48])
}

// Positions 3 to 40 of an 01 or 07, a line for each zone of the table, in its order. With the two zones that differ in a 04 as parameters the order would be lost.
fn balance_front(r: &[u8; RECORD]) -> bool
    ensures { result ≡ run zoned (front "01" blanks blanks []) r.now }
{
    zones::digits(&r[2..7])
        & zones::blanks(&r[7..11])
        & zones::digits(&r[11..16])
        & zones::letters(&r[16..19])
        & zones::digits(&r[19..20])
        & zones::blanks(&r[20..21])
        & zones::alnums(&r[21..32])
        & zones::blanks(&r[32..34])
        & zones::digits(&r[34..40])
}

// Positions 3 to 40 of a 04 or 05.
fn movement_front(r: &[u8; RECORD]) -> bool
    ensures { result ≡ run zoned (front "04" (text permitted) (text alnum) []) r.now }
{
    zones::digits(&r[2..7])
        & zones::permitted(&r[7..11])
        & zones::digits(&r[11..16])
        & zones::letters(&r[16..19])
        & zones::digits(&r[19..20])
        & zones::blanks(&r[20..21])
        & zones::alnums(&r[21..32])
        & zones::alnums(&r[32..34])
        & zones::digits(&r[34..40])
}

fn digits_or_blanks(s: &[u8]) -> bool
    ensures { result ≡ either_of digit blank s.now }
{
    zones::digits(s) | zones::blanks(s)
}

// Whether the bytes of a text are permitted. Where all of its record's are, they are not looked at again.
fn text_permitted(s: &[u8], clean: bool) -> bool
    requires { clean ≡ true → all permitted s.now ≡ true }
    ensures { result ≡ all permitted s.now }
{
    if clean {
        return true;
    }
    zones::permitted(s)
}

// A record and what was read of it once: the kind by which it is judged, whether it has the qualifier MMO, whether its date and its amount exist, and whether all its bytes are permitted.
#[derive(Clone, Copy)]
struct Seen<'a> {
    r: &'a [u8; RECORD],
    kind: Kind,
    mmo: bool,
    date: bool,
    amount: bool,
    clean: bool,
    ghost judged: { kind ≡ judged_as r.now },
    ghost qualified: { mmo ≡ is_mmo (part 46 118 r.now) },
    ghost exists: { date ≡ is_date (date_of (part 35 40 r.now)) },
    ghost valued: { amount ≡ is_amount (part 91 104 r.now) },
    ghost told: { clean ≡ all permitted r.now },
}

impl Seen<'_> {
    fn balance_zones(&self) -> bool
        ensures { result ≡ run zoned layout01 self.now.r.now }
    {
        let r = self.r;
        balance_front(r) & zones::blanks(&r[40..90]) & self.amount & zones::blanks(&r[104..120])
    }

    fn movement_zones(&self) -> bool
        ensures { result ≡ run zoned layout04 self.now.r.now }
    {
        let r = self.r;
        movement_front(r)
            & digits_or_blanks(&r[40..42])
            & zones::digits(&r[42..48])
            & text_permitted(&r[48..79], self.clean)
            & zones::blanks(&r[79..81])
            & zones::digits(&r[81..88])
            & zones::flags(&r[88..89])
            & zones::flags(&r[89..90])
            & self.amount
            & text_permitted(&r[104..120], self.clean)
    }

    fn plain_zones(&self) -> bool
        ensures { result ≡ run zoned layout05 self.now.r.now }
    {
        let r = self.r;
        movement_front(r)
            & zones::blanks(&r[40..45])
            & zones::alnums(&r[45..48])
            & text_permitted(&r[48..118], self.clean)
            & zones::blanks(&r[118..120])
    }

    fn mmo_zones(&self) -> bool
        ensures { result ≡ run zoned layout_mmo self.now.r.now }
    {
        let r = self.r;
        movement_front(r)
            & zones::blanks(&r[40..45])
            & zones::letters(&r[48..51])
            & zones::digits(&r[51..52])
            & zones::digits(&r[52..66])
            & zones::blanks(&r[66..118])
            & zones::blanks(&r[118..120])
    }

    // 8: the zones of the record's own layout.
    fn zones_fit(&self) -> bool
        ensures { result ≡ run zoned (layout_for self.now.r.now) self.now.r.now }
    {
        match self.kind {
            Kind::Movement => self.movement_zones(),
            Kind::Complement if self.mmo => self.mmo_zones(),
            Kind::Complement => self.plain_zones(),
            Kind::Opening | Kind::Closing => self.balance_zones(),
        }
    }

    // 9: the date of every record, and the value date of a 04.
    fn dates_fit(&self) -> bool
        ensures { result ≡ run dated (layout_for self.now.r.now) self.now.r.now }
    {
        let r = self.r;
        match self.kind {
            Kind::Movement => self.date & dates::read(&r[42..48]).is_some(),
            _ => self.date,
        }
    }
}

pub fn look_at(r: &[u8]) -> Look
    ensures { LookAt r.now result }
{
    let Ok(r) = <&[u8; RECORD]>::try_from(r) else {
        return Look {
            kind: None,
            misfit: true,
            undated: true,
            day: 0,
            amount: 0,
            mmo: false,
            permitted: false,
        };
    };
    let kind = kind_of(r);
    let date = dates::read(&r[34..40]);
    let amount = amounts::read(&r[90..104]);
    let seen = Seen {
        r,
        // An unknown code has the layout of a 07.
        kind: kind.unwrap_or(Kind::Closing),
        mmo: mmo(r),
        date: date.is_some(),
        amount: amount.is_some(),
        clean: zones::permitted(r),
    };
    Look {
        kind,
        misfit: !seen.zones_fit(),
        undated: !seen.dates_fit(),
        day: date.unwrap_or(0),
        amount: amount.unwrap_or(0),
        mmo: seen.mmo,
        permitted: seen.clean,
    }
}

// Bank, branch, currency, decimals and account of two records are the same. Records of another length than 120 have no key.
pub fn same_key(a: &[u8], b: &[u8]) -> bool
    ensures { SameKey a.now b.now result }
{
    if a.len() != RECORD {
        return false;
    }
    if b.len() != RECORD {
        return false;
    }
    zones::same(&a[2..7], &b[2..7])
        & (zones::same(&a[11..16], &b[11..16])
            & (zones::same(&a[16..19], &b[16..19])
                & ((a[19] == b[19]) & zones::same(&a[21..32], &b[21..32]))))
}

// Positions 3 to 40 of two records are the same.
pub fn same_front(a: &[u8], b: &[u8]) -> bool
    ensures { SameFront a.now b.now result }
{
    if a.len() != RECORD {
        return false;
    }
    if b.len() != RECORD {
        return false;
    }
    zones::same(&a[2..40], &b[2..40])
}
