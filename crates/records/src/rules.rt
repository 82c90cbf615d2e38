// The rules that look at the state between two records: the records of the open statement so far, 0 where none is open, and its last movement.
// They take a movement and a kind as numbers, and not as enums: the contracts `Misplaced`, `SecondMmo`, `Misdated`, `Unsummed` answer for any number.
ghost use Rattle.std.specs.Prelude.{◌≡◌};
ghost use Rattle.records.specs.Tests.{movement_of};
ghost use Rattle.records.specs.Answers.{Misplaced, SecondMmo, Misdated, SameBalance, Unsummed, TooLong};

use crate::MOST_IN_STATEMENT;

// The last 04 of a statement: there is none yet, its 05 so far have no MMO, or one has.
#[derive(Clone, Copy, PartialEq, Eq)]
pub enum LastMovement {
    Absent,
    Plain,
    WithMmo,
}

// Its number: 0, 1, 2.
impl From<LastMovement> for u8 {
    ghost from_gives = { λ movement n. n ≡ movement_of movement };

    fn from(movement: LastMovement) -> u8 {
        movement as u8
    }
}

// 7: record out of place.
pub fn misplaced(size: u64, movement: u8, kind: u8) -> bool
    ensures { Misplaced size movement kind result }
{
    ((size == 0) & (kind != 1)) | ((size != 0) & ((kind == 1) | ((kind == 5) & (movement == 0))))
}

// 11: second MMO in a movement.
pub fn second_mmo(size: u64, movement: u8, kind: u8, mmo: bool) -> bool
    ensures { SecondMmo size movement kind mmo result }
{
    (size != 0) & (((kind == 5) & (movement == 2)) & mmo)
}

// 12: order of dates, seen at the 04 or 07.
pub fn misdated(size: u64, kind: u8, day: u32, old: u32, latest: u32) -> bool
    ensures { Misdated size kind day old latest result }
{
    (size != 0) & (((kind == 4) & (day < old)) | ((kind == 7) & (day < latest)))
}

pub fn same_balance(a: i64, b: i64) -> bool
    ensures { SameBalance a b result }
{
    a == b
}

// 13: sum wrong, seen at the 07.
pub fn unsummed(size: u64, kind: u8, same: bool) -> bool
    ensures { Unsummed size kind same result }
{
    (size != 0) & ((kind == 7) & !same)
}

// 15: record that would be a statement's 10,000th.
pub fn too_long(size: u64) -> bool
    ensures { TooLong size result }
{
    (size != 0) & (MOST_IN_STATEMENT <= size)
}
