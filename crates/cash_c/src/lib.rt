// What the cash desk in C gets of `cash`: an archive of its exported functions.
#![tactic(auto)]

ghost use Rattle.cash.specs.Answers.{PositionNumber, Balance, DayAfter};

#[unsafe(no_mangle)]
pub extern "C" fn crownhazel_position(
    journal: &[u8],
    key: &[u8],
    first: u64,
    last: u64,
    table: &mut [i64],
) -> u64
    ensures { PositionNumber journal.now key.now first last table.old result table.new }
{
    cash::crownhazel_position(journal, key, first, last, table)
}

#[unsafe(no_mangle)]
pub extern "C" fn crownhazel_balance(journal: &[u8], entry: u64) -> i64
    ensures { Balance journal.now entry result }
{
    cash::crownhazel_balance(journal, entry)
}

#[unsafe(no_mangle)]
pub extern "C" fn crownhazel_day(day: u64, after: u64) -> u64
    ensures { DayAfter day after result }
{
    cash::crownhazel_day(day, after)
}
