// The fields of one record, by value: the account key, a 04 as a row of a movement table, and what a balance in value counts of a 04.
#![tactic(auto)]

ghost use Rattle.std.specs.Prelude.{◌≡◌, length};
ghost use Rattle.zones.specs.Number.{value_of};
ghost use Rattle.fields.specs.Answers.{KeyAt, RowAt, ValuedAt};

use grammar::Key;
use records::RECORD;

// A movement: what its 04 says, and the number of its complements.
#[repr(C)]
#[derive(Clone, Copy, Default)]
pub struct Movement {
    pub internal: [u8; 4],
    pub code: [u8; 2],
    pub booked: u32,
    pub reject: [u8; 2],
    pub value: u32,
    pub label: [u8; 31],
    pub entry: u32,
    pub exempt: u8,
    pub unavailable: u8,
    pub amount: i64,
    pub reference: [u8; 16],
    pub complements: u64,
}

// What a balance in value counts of a movement: its value date and its amount.
#[derive(Clone, Copy, Default)]
pub struct Valued {
    pub value: u32,
    pub amount: i64,
}

// A zone of a record, by value.
fn zone<const N: usize>(s: &[u8]) -> [u8; N]
    requires { length s.now ≡ N }
    ensures { result ≡ s.now }
{
    let mut zone = [0; N];
    zone.copy_from_slice(s);
    zone
}

// The key in a record. A record of another length than 120 has none: zero bytes and no `Option`, since `KeyAt` answers any bytes.
pub fn key_at(r: &[u8]) -> Key
    ensures { KeyAt r.now result }
{
    if r.len() != RECORD {
        return Key::default();
    }
    Key {
        bank: zone(&r[2..7]),
        branch: zone(&r[11..16]),
        currency: zone(&r[16..19]),
        decimals: r[19],
        account: zone(&r[21..32]),
    }
}

fn entry_number(s: &[u8]) -> u32
    requires { length s.now ≡ 7 }
    ensures { result ≡ value_of s.now }
{
    zones::number(s) as u32
}

// The row of a 04 with so many complements. A record of another length than 120 has none: every number and byte is 0, and no `Option`, since `RowAt` answers any bytes.
pub fn row_at(r: &[u8], complements: u64) -> Movement
    ensures { RowAt r.now complements result }
{
    if r.len() != RECORD {
        return Movement::default();
    }
    Movement {
        internal: zone(&r[7..11]),
        code: zone(&r[32..34]),
        booked: dates::read(&r[34..40]).unwrap_or(0),
        reject: zone(&r[40..42]),
        value: dates::read(&r[42..48]).unwrap_or(0),
        label: zone(&r[48..79]),
        entry: entry_number(&r[81..88]),
        exempt: r[88],
        unavailable: r[89],
        amount: amounts::read(&r[90..104]).unwrap_or(0),
        reference: zone(&r[104..120]),
        complements,
    }
}

// The value date and the amount of a 04. A record of another length than 120 has none: both are 0, and no `Option`, since `ValuedAt` answers any bytes.
pub fn valued_at(r: &[u8]) -> Valued
    ensures { ValuedAt r.now result }
{
    if r.len() != RECORD {
        return Valued::default();
    }
    let value = dates::read(&r[42..48]).unwrap_or(0);
    Valued {
        value,
        amount: amounts::read(&r[90..104]).unwrap_or(0),
    }
}
