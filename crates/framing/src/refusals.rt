// The list of refusals: each reason has its number, and a refusal its reason and its record.
ghost use Rattle.framing.specs.Answers.{Numbers, RefusedAt};

// Why a call is refused, by its number in the list. 26 is not given.
#[derive(Clone, Copy, PartialEq, Eq)]
pub enum Reason {
    UnknownLineEnd = 1,
    UnevenLength = 2,
    TooManyRecords = 3,
    WrongLineEnd = 4,
    ForbiddenByte = 5,
    UnknownCode = 6,
    OutOfPlace = 7,
    WrongZone = 8,
    NoSuchDate = 9,
    OtherKey = 10,
    SecondMmo = 11,
    DatesOutOfOrder = 12,
    WrongSum = 13,
    OpenStatement = 14,
    TooLongStatement = 15,
    NoSuchStatement = 16,
    NoSuchMovement = 17,
    ShortTable = 18,
    NoSuchFile = 19,
    ShortOutput = 20,
    UnsoundJournal = 21,
    NotNext = 22,
    FullContents = 23,
    FullJournal = 24,
    NoSuchEntry = 25,
    NoSpan = 27,
}

// The reason, and the record where it is seen, from 1; 0 where it is none's.
#[derive(Clone, Copy, PartialEq, Eq)]
pub struct Refusal {
    pub reason: Reason,
    pub record: u64,
}

impl Reason {
    // The reason's number in the list.
    pub fn number(self) -> u64
        ensures { Numbers self result }
    {
        self as u64
    }

    // The refusal for this reason at a record.
    pub fn at(self, record: u64) -> Refusal
        ensures { RefusedAt self «record» result }
    {
        Refusal {
            reason: self,
            record,
        }
    }
}
