// One record written: which values a record can hold, and the bytes they are written as.
#![tactic(auto)]

ghost use Rattle.std.specs.Prelude.{◌≡◌, true, length};
ghost use Rattle.zones.specs.Class.{in_class};
ghost use Rattle.zones.specs.Class.Class.{digit, flag};
ghost use Rattle.dates.specs.Days.{is_day};
ghost use Rattle.amounts.specs.Amounts.{has_amount};
ghost use Rattle.records.specs.July.{text_size};
ghost use Rattle.writing.specs.Written.{posting_of, key_holds, posting_holds, mmo_holds, plain_holds};
ghost use Rattle.writing.specs.Groups.{bank_text, account_text, front_text, balance_put, middle_text, last_text};
ghost use Rattle.writing.specs.Answers.{BalanceFits, RowFits, TextFits, IsMmo, PutOpening, PutClosing, PutMovement, PutComplement};

use fields::Movement;
use grammar::Key;
use records::{RECORD, TEXT};

fn is_digit(b: u8) -> bool
    ensures { result ≡ in_class digit b }
{
    b.is_ascii_digit()
}

fn is_flag(b: u8) -> bool
    ensures { result ≡ in_class flag b }
{
    matches!(b, b'0' | b'1' | b' ')
}

fn key_fits(key: Key) -> bool
    ensures { result ≡ key_holds key }
{
    zones::digits(&key.bank)
        & (zones::digits(&key.branch)
            & (zones::letters(&key.currency)
                & (is_digit(key.decimals) & zones::alnums(&key.account))))
}

// How many entry numbers there are: those of seven digits.
const ENTRY_NUMBERS: u32 = 10000000;

fn posting_fits(m: Movement) -> bool
    ensures { result ≡ posting_holds (posting_of m) }
{
    zones::permitted(&m.internal)
        & (zones::alnums(&m.code)
            & (dates::is_day(m.booked)
                & ((zones::digits(&m.reject) | zones::blanks(&m.reject))
                    & (dates::is_day(m.value)
                        & (zones::permitted(&m.label)
                            & ((m.entry < ENTRY_NUMBERS)
                                & (is_flag(m.exempt)
                                    & (is_flag(m.unavailable)
                                        & (amounts::has_amount(m.amount)
                                            & zones::permitted(&m.reference))))))))))
}

// Whether a 01 or a 07 can hold these values.
pub fn balance_fits(key: Key, date: u32, amount: i64) -> bool
    ensures { BalanceFits key date amount result }
{
    key_fits(key) & (dates::is_day(date) & amounts::has_amount(amount))
}

// Whether a 04 can hold these values.
pub fn row_fits(key: Key, m: Movement) -> bool
    ensures { RowFits key m result }
{
    key_fits(key) & posting_fits(m)
}

// Whether a complement's text has the qualifier MMO.
pub fn is_mmo(text: &[u8]) -> bool
    ensures { IsMmo text.now result }
{
    if text.len() < 3 {
        return false;
    }
    zones::same(b"MMO", &text[0..3])
}

#[tactic(auto, unfolding(crate::specs::Written::mmo_holds))]
fn mmo_fits(text: &[u8]) -> bool
    requires { length text.now ≡ text_size }
    ensures { result ≡ mmo_holds text.now }
{
    zones::letters(&text[3..6])
        & (zones::digits(&text[6..7])
            & (zones::digits(&text[7..21]) & zones::blanks(&text[21..73])))
}

#[tactic(auto, unfolding(crate::specs::Written::plain_holds))]
fn plain_fits(text: &[u8]) -> bool
    requires { length text.now ≡ text_size }
    ensures { result ≡ plain_holds text.now }
{
    zones::alnums(&text[0..3]) & zones::permitted(&text[3..73])
}

// Whether a 05 can hold the text: qualifier and information, 73 bytes.
#[tactic(auto, unfolding(crate::specs::Written::text_holds))]
pub fn text_fits(text: &[u8]) -> bool
    ensures { TextFits text.now result }
{
    if text.len() != TEXT {
        return false;
    }
    if is_mmo(text) {
        return mmo_fits(text);
    }
    plain_fits(text)
}

// Positions 1 to 16 of any record, by the second character of its code.
fn put_bank(out: &mut [u8], code: u8, key: Key, internal: [u8; 4])
    requires { length out.old ≡ 16 }
    ensures { out.new ≡ bank_text code key internal }
{
    zones::put(&mut out[0..2], &[b'0', code]);
    zones::put(&mut out[2..7], &key.bank);
    zones::put(&mut out[7..11], &internal);
    zones::put(&mut out[11..16], &key.branch);
}

// Positions 17 to 40 of any record.
fn put_account(out: &mut [u8], key: Key, operation: [u8; 2], date: u32)
    requires { (length out.old ≡ 24) × (is_day date ≡ true) }
    ensures { out.new ≡ account_text key operation date }
{
    zones::put(&mut out[0..3], &key.currency);
    zones::put(&mut out[3..5], &[key.decimals, b' ']);
    zones::put(&mut out[5..16], &key.account);
    zones::put(&mut out[16..18], &operation);
    dates::put(&mut out[18..24], date);
}

// Positions 1 to 40 of any record.
fn put_front(out: &mut [u8], code: u8, key: Key, internal: [u8; 4], operation: [u8; 2], date: u32)
    requires { (length out.old ≡ 40) × (is_day date ≡ true) }
    ensures { out.new ≡ front_text code key internal operation date }
{
    put_bank(&mut out[0..16], code, key, internal);
    put_account(&mut out[16..40], key, operation, date);
}

// A 01 or a 07, by the second character of its code, into 120 bytes. Nothing changes where the part has another length or the record cannot hold the values.
fn put_balance(out: &mut [u8], code: u8, key: Key, date: u32, amount: i64)
    ensures { out.new ≡ balance_put code key date amount out.old }
{
    if out.len() != RECORD {
        return;
    }
    if !balance_fits(key, date, amount) {
        return;
    }
    put_front(&mut out[0..40], code, key, [b' '; 4], [b' '; 2], date);
    zones::put(&mut out[40..90], &[b' '; 50]);
    amounts::put(&mut out[90..104], amount);
    zones::put(&mut out[104..120], &[b' '; 16]);
}

// A 01 into 120 bytes. Nothing changes where the part has another length or a 01 cannot hold the values.
pub fn put_opening(out: &mut [u8], key: Key, date: u32, amount: i64)
    ensures { PutOpening key date amount out.old out.new }
{
    put_balance(out, b'1', key, date, amount);
}

// A 07, in the same way.
pub fn put_closing(out: &mut [u8], key: Key, date: u32, amount: i64)
    ensures { PutClosing key date amount out.old out.new }
{
    put_balance(out, b'7', key, date, amount);
}

// Positions 41 to 81 of a 04.
fn put_middle(out: &mut [u8], m: Movement)
    requires { (length out.old ≡ 41) × (is_day m.value ≡ true) }
    ensures { out.new ≡ middle_text m }
{
    zones::put(&mut out[0..2], &m.reject);
    dates::put(&mut out[2..8], m.value);
    zones::put(&mut out[8..39], &m.label);
    zones::put(&mut out[39..41], b"  ");
}

// Positions 82 to 120 of a 04.
fn put_last(out: &mut [u8], m: Movement)
    requires { (length out.old ≡ 39) × (has_amount m.amount ≡ true) }
    ensures { out.new ≡ last_text m }
{
    zones::put_number(&mut out[0..7], m.entry as u64);
    zones::put(&mut out[7..9], &[m.exempt, m.unavailable]);
    amounts::put(&mut out[9..23], m.amount);
    zones::put(&mut out[23..39], &m.reference);
}

// A 04 into 120 bytes. Nothing changes where the part has another length or a 04 cannot hold the values.
pub fn put_movement(out: &mut [u8], key: Key, m: Movement)
    ensures { PutMovement key m out.old out.new }
{
    if out.len() != RECORD {
        return;
    }
    if !row_fits(key, m) {
        return;
    }
    put_front(&mut out[0..40], b'4', key, m.internal, m.code, m.booked);
    put_middle(&mut out[40..81], m);
    put_last(&mut out[81..120], m);
}

// A 05 of a movement into 120 bytes: 1 to 40 as its 04, five blanks, the text, two blanks.
// Nothing changes where the part has another length, a 04 cannot hold the values, or a 05 not the text.
pub fn put_complement(out: &mut [u8], key: Key, m: Movement, text: &[u8])
    ensures { PutComplement key m text.now out.old out.new }
{
    if out.len() != RECORD {
        return;
    }
    if !(row_fits(key, m) & text_fits(text)) {
        return;
    }
    put_front(&mut out[0..40], b'5', key, m.internal, m.code, m.booked);
    zones::put(&mut out[40..45], b"     ");
    zones::put(&mut out[45..118], text);
    zones::put(&mut out[118..120], b"  ");
}
