// What a collector in C gets of `collector`: an archive of its functions.
#![tactic(auto)]

ghost use Rattle.collector.specs.Answers.{CheckNumber, OpenNumber, DeliverNumber, ExpectedDate, ExpectedBalance, EntryNumber, UsedNumber, ListedNumber, LengthNumber, EarliestNumber};

#[unsafe(no_mangle)]
pub extern "C" fn crownhazel_check(line_end: u64, file: &[u8]) -> u64
    ensures { CheckNumber line_end file.now result }
{
    collector::crownhazel_check(line_end, file)
}

#[unsafe(no_mangle)]
pub extern "C" fn crownhazel_open(journal: &mut [u8]) -> u64
    ensures { OpenNumber journal.old result journal.new }
{
    collector::crownhazel_open(journal)
}

#[unsafe(no_mangle)]
pub extern "C" fn crownhazel_deliver(journal: &mut [u8], line_end: u64, file: &[u8]) -> u64
    ensures { DeliverNumber journal.old line_end file.now result journal.new }
{
    collector::crownhazel_deliver(journal, line_end, file)
}

#[unsafe(no_mangle)]
pub extern "C" fn crownhazel_expected_date(journal: &[u8], line_end: u64, file: &[u8]) -> u64
    ensures { ExpectedDate journal.now line_end file.now result }
{
    collector::crownhazel_expected_date(journal, line_end, file)
}

#[unsafe(no_mangle)]
pub extern "C" fn crownhazel_expected_balance(journal: &[u8], line_end: u64, file: &[u8]) -> i64
    ensures { ExpectedBalance journal.now line_end file.now result }
{
    collector::crownhazel_expected_balance(journal, line_end, file)
}

#[unsafe(no_mangle)]
pub extern "C" fn crownhazel_entry(journal: &[u8], entry: u64) -> u64
    ensures { EntryNumber journal.now entry result }
{
    collector::crownhazel_entry(journal, entry)
}

#[unsafe(no_mangle)]
pub extern "C" fn crownhazel_used(journal: &[u8]) -> u64
    ensures { UsedNumber journal.now result }
{
    collector::crownhazel_used(journal)
}

#[unsafe(no_mangle)]
pub extern "C" fn crownhazel_listed(journal: &[u8], entry: u64, row: &mut [u8]) -> u64
    ensures { ListedNumber journal.now entry row.old result row.new }
{
    collector::crownhazel_listed(journal, entry, row)
}

#[unsafe(no_mangle)]
pub extern "C" fn crownhazel_length(line_end: u64, length: u64) -> u64
    ensures { LengthNumber line_end length result }
{
    collector::crownhazel_length(line_end, length)
}

#[unsafe(no_mangle)]
pub extern "C" fn crownhazel_earliest(line_end: u64, file: &[u8]) -> u64
    ensures { EarliestNumber line_end file.now result }
{
    collector::crownhazel_earliest(line_end, file)
}
