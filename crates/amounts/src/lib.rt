// Amounts of fourteen bytes: thirteen digits, then a sign character.
#![tactic(auto)]

ghost use Rattle.std.specs.Prelude.{◌≡◌, ◌^◌, ◌<◌, length};
ghost use Rattle.amounts.specs.Amounts.{sign_place, signed_of, sign_byte, signed_text};
ghost use Rattle.amounts.specs.Answers.{Read, HasAmount, Absolute, Put};

// The place of a sign character among `{`, A to I, `}`, J to R.
#[tactic(auto, using(crate::proofs::Signs::places), unfolding(crate::specs::Amounts::sign_index))]
fn sign_place(b: u8) -> Option<u8>
    ensures { result ≡ sign_place b }
{
    match b {
        b'{' => Some(0),
        b'A'..=b'I' => Some(b - b'A' + 1),
        b'}' => Some(10),
        b'J'..=b'R' => Some(b - b'J' + 11),
        _ => None,
    }
}

fn signed(debit: bool, m: u64) -> i64
    requires { m < 2 ^ 63 }
    ensures { result ≡ signed_of debit m }
{
    if debit { -(m as i64) } else { m as i64 }
}

// The amount in fourteen bytes. Other lengths and other bytes are none. A debit zero is zero.
#[tactic(auto, using(crate::proofs::Reading::reading))]
pub fn read(s: &[u8]) -> Option<i64>
    ensures { Read s.now result }
{
    if s.len() != 14 || !zones::digits(&s[0..13]) {
        return None;
    }
    let k = sign_place(s[13])?;
    let m = zones::number(&s[0..13]) * 10 + u64::from(k % 10);
    Some(signed(10 <= k, m))
}

// The largest amount: fourteen digits.
const MOST_AMOUNT: u64 = 99999999999999;

// Whether an amount can have the value: fourteen digits at most, either way.
#[tactic(auto, unfolding(crate::specs::Amounts::has_amount))]
pub fn has_amount(v: i64) -> bool
    ensures { HasAmount v result }
{
    absolute(v) <= MOST_AMOUNT
}

// A number without its sign.
pub fn absolute(v: i64) -> u64
    ensures { Absolute v result }
{
    v.unsigned_abs()
}

fn sign_byte(debit: bool, d: usize) -> u8
    requires { d < 10 }
    ensures { result ≡ sign_byte debit d }
{
    let signs = b"{ABCDEFGHI}JKLMNOPQR";
    signs[if debit { 10 + d } else { d }]
}

#[tactic(auto, unfolding(crate::specs::Amounts::signed_text), using(crate::proofs::Reading::put_text))]
fn put_signed(out: &mut [u8], debit: bool, m: u64)
    requires { length out.old ≡ 14 }
    ensures { out.new ≡ signed_text debit m }
{
    zones::put_number(&mut out[0..13], m / 10);
    out[13] = sign_byte(debit, (m % 10) as usize);
}

// The fourteen bytes of a value, and whether they were written. A value that no amount has, or a part of another length, is refused and nothing changes.
#[tactic(auto, unfolding(crate::specs::Amounts::put_amount))]
pub fn put(out: &mut [u8], v: i64) -> bool
    ensures { Put v out.old result out.new }
{
    if out.len() != 14 || !has_amount(v) {
        return false;
    }
    put_signed(out, v < 0, absolute(v));
    true
}
