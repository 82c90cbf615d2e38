// The interbank operation codes of annex 2: their numbers, what the bits say, and a movement's mark.
#![tactic(auto)]

ghost use Rattle.std.specs.Prelude.{◌≡◌, ◌<◌, ◌≤◌, MatchOption};
ghost use Rattle.codes.specs.Code.{characters, char_value, sign_ticked, mark_for, mark_number};
ghost use Rattle.codes.specs.Answers.{Table, NumberIn, MarkIn, Number, Mark, DebitTicked, CreditTicked, Family, Generic};

use std::cmp::Ordering;

// The characters that there are for a code: 0 to 9, A to Z.
const CHARACTERS: usize = 36;

// The codes of two characters, and so the numbers of a table.
pub const CODES: usize = CHARACTERS * CHARACTERS;

// The numbers of a code that annex 2 has not, and of one that it has withdrawn.
const ABSENT: u16 = 0;

const WITHDRAWN: u16 = 1;

// The number of each code of annex 2, at its index. Those of the worked examples are named.
const TABLE: [u16; CODES] = [
    0, 65509, // 01
    70, 65509, 65510, 166, 197, 65509, 261, 294, 0, 0, 0, 0, 0, 0, 0, 0, 0, 0, 0, 0, 0, 0, 0, 0, 0,
    0, 0, 0, 0, 0, 0, 0, 0, 0, 1157, 1191, 65510, 166, 197, 70, 1, // 16
    1, 166, 0, // 19
    0, 0, 0, 0, 0, 0, 0, 0, 0, 0, 0, 0, 0, 0, 0, 0, 0, 0, 0, 0, 0, 0, 0, 0, 0, 0, 1, 197, 261, 261,
    294, 294, 1157, 1157, 1189, // 28
    1189, 0, 0, 0, 0, 0, 0, 0, 0, 0, 0, 0, 0, 0, 0, 0, 0, 0, 0, 0, 0, 0, 0, 0, 0, 0, 0, 1190, 3498,
    3530, 65513, 65515, 3498, 1189, 3530, 1189, 166, 0, 0, 0, 0, 0, 0, 0, 0, 0, 0, 0, 0, 0, 0, 0,
    0, 0, 0, 0, 0, 0, 0, 0, 0, 0, 0, 1, 4655, 4687, 4719, 4653, 4654, 4685, 4686, 4685, 4686, 0, 0,
    0, 0, 0, 0, 0, 0, 0, 0, 0, 0, 0, 0, 0, 0, 0, 0, 0, 0, 0, 0, 0, 0, 0, 0, 1, 5811, 5843, 5809,
    5810, 5811, 5809, 5810, 5809, 5810, 0, 0, 0, 0, 0, 0, 0, 0, 0, 0, 0, 0, 0, 0, 0, 0, 0, 0, 0, 0,
    0, 0, 0, 0, 0, 0, 0, 6967, 6997, 6966, 6997, 6997, 6997, 6997, 4717, 4718, 0, 0, 0, 0, 0, 0, 0,
    0, 0, 0, 0, 0, 0, 0, 0, 0, 0, 0, 0, 0, 0, 0, 0, 0, 0, 0, 6965, 65530, 65529, 65530, 65530,
    65529, 65529, 65530, 1, 1, 0, 0, 0, 0, 0, 0, 0, 0, 0, 0, 0, 0, 0, 0, 0, 0, 0, 0, 0, 0, 0, 0, 0,
    0, 0, 0, 5809, 5810, 5811, 5811, 5809, 5810, 5843, 5842, 5841, 5842, 0, 0, 0, 0, 0, 0, 0, 0, 0,
    0, 0, 0, 0, 0, 0, 0, 0, 0, 0, 0, 0, 0, 0, 0, 0, 0, 197, 65535, 65511, 65511, 65510, 65509, 261,
    294, 1157, 65535, 0, 0, 0, 0, 0, 0, 0, 0, 0, 0, 0, 0, 0, 0, 0, 0, 0, 0, 0, 0, 0, 0, 0, 0, 0, 0,
    0, 294, 294, 1158, // A3
    1158, 1157, 1157, 0, 0, 0, 0, 0, 0, 0, 0, 0, 0, 0, 0, 0, 0, 0, 0, 0, 0, 0, 0, 0, 0, 0, 0, 0, 0,
    0, 0, 0, 0, 261, 261, 1157, 1157, 1158, 1158, 0, 0, 0, 0, 0, 0, 0, 0, 0, 0, 0, 0, 0, 0, 0, 0,
    0, 0, 0, 0, 0, 0, 0, 0, 0, 0, 0, 0, 0, 0, 0, 0, 0, 0, 0, 0, 0, 0, 0, 0, 0, 0, 0, 0, 0, 0, 0, 0,
    0, 0, 0, 0, 0, 0, 0, 0, 0, 0, 0, 0, 0, 0, 0, 0, 0, 0, 0, 0, 0, 0, 0, 0, 0, 0, 0, 0, 0, 0, 0, 0,
    0, 0, 0, 0, 0, 0, 0, 0, 0, 0, 0, 0, 0, 0, 0, 0, 0, 0, 0, 0, 0, 0, 0, 0, 0, 0, 0, 0, 0, 0, 0, 0,
    0, 0, 0, 0, 0, 0, 0, 0, 0, 0, 0, 0, 0, 0, 0, 0, 0, 0, 0, 0, 0, 0, 0, 0, 0, 0, 0, 0, 0, 0, 0, 0,
    0, 0, 0, 0, 0, 0, 0, 0, 0, 0, 0, 0, 0, 0, 0, 0, 0, 0, 0, 0, 0, 0, 0, 0, 0, 0, 0, 0, 0, 0, 0, 0,
    0, 0, 0, 0, 0, 0, 0, 0, 0, 0, 0, 0, 0, 0, 0, 0, 0, 0, 0, 0, 0, 0, 0, 0, 0, 0, 0, 0, 0, 0, 0, 0,
    0, 0, 0, 0, 0, 0, 0, 0, 0, 0, 0, 0, 0, 0, 0, 0, 0, 0, 0, 0, 0, 0, 0, 0, 0, 0, 0, 0, 0, 0, 0, 0,
    0, 0, 0, 0, 0, 0, 0, 0, 0, 0, 0, 0, 0, 0, 0, 0, 0, 0, 0, 0, 0, 0, 0, 0, 0, 0, 0, 0, 0, 0, 0, 0,
    0, 0, 0, 0, 0, 0, 0, 0, 0, 0, 0, 0, 0, 0, 0, 0, 0, 0, 0, 0, 0, 0, 0, 0, 0, 0, 0, 0, 0, 0, 0, 0,
    0, 0, 0, 0, 0, 0, 0, 0, 0, 0, 0, 0, 0, 0, 0, 0, 0, 0, 0, 0, 0, 0, 0, 0, 0, 0, 0, 0, 0, 0, 0, 0,
    0, 0, 0, 0, 0, 0, 0, 0, 0, 0, 0, 0, 0, 0, 0, 0, 0, 0, 0, 0, 0, 0, 0, 0, 0, 0, 0, 0, 0, 0, 0, 0,
    0, 0, 0, 0, 0, 0, 0, 0, 0, 0, 0, 0, 0, 0, 0, 0, 0, 0, 0, 0, 0, 0, 0, 0, 0, 0, 0, 0, 0, 0, 0, 0,
    0, 0, 0, 0, 0, 0, 0, 0, 0, 0, 0, 0, 0, 0, 0, 0, 0, 0, 0, 0, 0, 0, 0, 0, 0, 0, 0, 0, 0, 0, 0, 0,
    0, 0, 0, 0, 0, 0, 0, 0, 0, 0, 0, 0, 0, 0, 0, 0, 0, 0, 0, 0, 0, 0, 0, 0, 0, 0, 0, 0, 0, 0, 0, 0,
    0, 0, 0, 0, 0, 0, 0, 0, 0, 0, 0, 0, 0, 0, 0, 0, 0, 0, 0, 0, 0, 0, 0, 0, 0, 0, 0, 0, 0, 0, 0, 0,
    0, 0, 0, 0, 0, 0, 0, 0, 0, 0, 0, 0, 0, 0, 0, 0, 0, 0, 0, 0, 0, 0, 0, 0, 0, 0, 0, 0, 0, 0, 0, 0,
    0, 0, 0, 0, 0, 0, 0, 0, 0, 0, 0, 0, 0, 0, 0, 0, 0, 0, 0, 0, 0, 0, 0, 0, 0, 0, 0, 0, 0, 0, 0, 0,
    0, 0, 0, 0, 0, 0, 0, 0, 0, 0, 0, 0, 0, 0, 0, 0, 0, 0, 0, 0, 0, 0, 0, 0, 0, 0, 0, 0, 0, 0, 0, 0,
    0, 0, 0, 0, 0, 0, 0, 0, 0, 0, 0, 0, 0, 0, 0, 0, 0, 0, 0, 0, 0, 0, 0, 0, 0, 0, 0, 0, 0, 0, 0, 0,
    0, 0, 0, 0, 0, 0, 0, 0, 0, 0, 0, 0, 0, 0, 0, 0, 0, 0, 0, 0, 0, 0, 0, 0, 0, 0, 0, 0, 0, 0, 0, 0,
    0, 0, 0, 0, 0, 0, 0, 0, 0, 0, 0, 0, 0, 0, 0, 0, 0, 0, 0, 0, 0, 0, 0, 0, 0, 0, 0, 0, 0, 0, 0, 0,
    0, 0, 0, 0, 0, 0, 0, 0, 0, 0, 0, 0, 0, 0, 0, 0, 0, 0, 0, 0, 0, 0, 0, 0, 0, 0, 0, 0, 0, 0, 0, 0,
    0, 0, 0, 0, 0, 0, 0, 0, 0, 0, 0, 0, 0, 0, 0, 0, 0, 0, 0, 0, 0, 0, 0, 0, 0, 0, 0, 0, 0, 0, 0, 0,
    0, 0, 0, 0, 0, 0, 0, 0, 0, 0, 0, 0, 0, 0, 0, 0, 0, 0, 0, 0, 0, 0, 0, 0, 0, 0, 0, 0, 0, 0, 0, 0,
    0, 0, 0, 0, 0, 0, 0, 0, 0, 0, 0, 0, 0, 0, 0, 0, 0, 0, 0, 0, 0, 0, 0, 0, 0, 0, 0, 0, 0, 0, 0, 0,
    0, 0, 0, 0, 0, 0, 0, 0, 0, 0, 0, 0, 0, 0, 0, 0, 0, 0, 0, 0, 0, 0, 0, 0, 0, 0, 0, 0, 0, 0, 0, 0,
    0, 0, 0, 0, 0, 0, 0, 0, 0, 0, 0, 0, 0, 0, 0, 0, 0, 0, 0, 0, 0, 0, 0, 0, 0, 0, 0, 0, 0, 0, 0, 0,
    0, 0, 0, 0, 0, 0, 0, 0, 0, 0, 0, 0, 0,
];

// The whole table, for a caller that looks codes up in a loop: each mention of a constant builds it anew.
pub fn table() -> [u16; CODES]
    ensures { Table result }
{
    TABLE
}

// The value of a character: 0 to 9, A to Z 10 to 35; none of any other byte.
#[tactic(auto, unfolding(crate::specs::Code::char_value))]
fn char_value(b: u8) -> Option<usize>
    ensures { MatchOption result (characters ≤ char_value b) (λ v. (v < characters) × (v ≡ char_value b)) }
{
    match b {
        b'0'..=b'9' => Some(usize::from(b - b'0')),
        b'A'..=b'Z' => Some(10 + usize::from(b - b'A')),
        _ => None,
    }
}

// The number in a lent table of the code of two bytes; 0, the number of a code that is absent, where one is outside A-Z, 0-9.
#[tactic(auto, unfolding(crate::specs::Code::number_in))]
pub fn number_in(table: &[u16; CODES], first: u8, second: u8) -> u16
    ensures { NumberIn table.now first second result }
{
    match (char_value(first), char_value(second)) {
        (Some(a), Some(b)) => table[CHARACTERS * a + b],
        _ => ABSENT,
    }
}

// The same in the table of annex 2.
pub fn number(first: u8, second: u8) -> u16
    ensures { Number first second result }
{
    number_in(&table(), first, second)
}

// Bit 0. Two functions, as the paper names two bits: of one expression each, one more that takes the bit would not be plainer.
pub fn debit_ticked(n: u16) -> bool
    ensures { DebitTicked n result }
{
    (n & 1) == 1
}

// Bit 1.
pub fn credit_ticked(n: u16) -> bool
    ensures { CreditTicked n result }
{
    ((n >> 1) & 1) == 1
}

// Bits 2 to 4. A number and no enum: it has an answer for any number, as the next one.
pub fn family(n: u16) -> u16
    ensures { Family n result }
{
    (n >> 2) & 7
}

// Bits 5 to 15: the generic code's index, 2047 where there is none. A number, as the one before.
pub fn generic(n: u16) -> u16
    ensures { Generic n result }
{
    n >> 5
}

// Whether the column of the amount's sign is ticked; a zero amount's always is.
fn sign_ticked(n: u16, amount: i64) -> bool
    ensures { result ≡ sign_ticked n amount }
{
    match amount.cmp(&0) {
        Ordering::Less => debit_ticked(n),
        Ordering::Equal => true,
        Ordering::Greater => credit_ticked(n),
    }
}

// The mark of a movement. Each has the paper's number. Good and Unticked are of a listed code, by the column of the amount's sign.
#[derive(Clone, Copy, PartialEq, Eq, Debug)]
pub enum MovementMark {
    Good = 0,
    Withdrawn = 1,
    Absent = 2,
    Unticked = 3,
}

// Its number in the paper.
impl From<MovementMark> for u8 {
    ghost from_gives = { λ mark n. n ≡ mark_number mark };

    fn from(mark: MovementMark) -> u8 {
        mark as u8
    }
}

// The mark for a code's number: withdrawn and absent come before the sign.
#[tactic(auto, unfolding(crate::specs::Code::mark_for))]
fn mark_for(n: u16, amount: i64) -> MovementMark
    ensures { mark_number result ≡ mark_for n amount }
{
    match n {
        WITHDRAWN => MovementMark::Withdrawn,
        ABSENT => MovementMark::Absent,
        _ if sign_ticked(n, amount) => MovementMark::Good,
        _ => MovementMark::Unticked,
    }
}

// The mark of a movement by a lent table.
pub fn mark_in(table: &[u16; CODES], first: u8, second: u8, amount: i64) -> MovementMark
    ensures { MarkIn table.now first second amount result }
{
    mark_for(number_in(table, first, second), amount)
}

// The mark of a movement by the table of annex 2.
pub fn mark(first: u8, second: u8, amount: i64) -> MovementMark
    ensures { Mark first second amount result }
{
    mark_in(&table(), first, second, amount)
}
