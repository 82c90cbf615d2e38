// Dates DDMMYY that must exist, as numbers YYYYMMDD: a later day has a larger number. Days as ordinals: 1 January 1980 is 0, 31 December 2079 is 36,524.
#![tactic(auto)]

ghost use Rattle.std.specs.Prelude.{◌≡◌, suc, ◌+◌, ◌<◌, ◌≤◌, length};
ghost use Rattle.dates.specs.Days.{year_of, is_leap, days_in, exists as existsOf, day_of, date_text};
ghost use Rattle.dates.specs.Ordinals.{before_month};
ghost use Rattle.dates.specs.Answers.{Read, IsDay, Put, Ordinal, OfOrdinal};

// The days from 1980 to 2079.
pub const ALL_DAYS: u32 = 36525;

#[tactic(auto, unfolding(crate::specs::Days::year_of))]
fn year(yy: u64) -> u64
    requires { yy < 100 }
    ensures { (result ≡ year_of yy) × (result ≤ 2079) }
{
    if yy < 80 { 2000 + yy } else { 1900 + yy }
}

fn is_leap(y: u64) -> bool
    ensures { result ≡ is_leap y }
{
    y % 4 == 0 && (y % 100 != 0 || y % 400 == 0)
}

#[tactic(auto, unfolding(crate::specs::Days::days_in))]
fn days_in(y: u64, m: u64) -> u64
    ensures { result ≡ days_in y m }
{
    if m == 2 && is_leap(y) {
        return 29;
    }
    if m >= 13 {
        return 0;
    }
    let days: [u8; 13] = [0, 31, 28, 31, 30, 31, 30, 31, 31, 30, 31, 30, 31];
    u64::from(days[m as usize])
}

#[tactic(auto, unfolding(crate::specs::Days::exists))]
fn exists(y: u64, m: u64, d: u64) -> bool
    ensures { result ≡ existsOf y m d }
{
    1 <= d && d <= days_in(y, m)
}

#[tactic(auto, unfolding(crate::specs::Days::day_of))]
fn day_of(y: u64, m: u64, d: u64) -> Option<u32>
    requires { (y ≤ 2079) × (m < 100) × (d < 100) }
    ensures { result ≡ day_of y m d }
{
    if exists(y, m, d) {
        Some((y * 10000 + m * 100 + d) as u32)
    } else {
        None
    }
}

// The date in six digits. Other lengths, other bytes and days that do not exist are none.
#[tactic(auto, using(crate::proofs::Reading::reading))]
pub fn read(s: &[u8]) -> Option<u32>
    ensures { Read s.now result }
{
    if s.len() != 6 || !zones::digits(s) {
        return None;
    }
    let d = zones::number(&s[0..2]);
    let m = zones::number(&s[2..4]);
    let y = year(zones::number(&s[4..6]));
    day_of(y, m, d)
}

// Whether a number YYYYMMDD is that of a day, in the years 1980 to 2079.
#[tactic(auto, unfolding(crate::specs::Days::is_day))]
pub fn is_day(k: u32) -> bool
    ensures { IsDay k result }
{
    let n = u64::from(k);
    let y = n / 10000;
    1980 <= y && y <= 2079 && exists(y, n / 100 % 100, n % 100)
}

fn put_digits(out: &mut [u8], k: u64)
    requires { length out.old ≡ 6 }
    ensures { out.new ≡ date_text k }
{
    zones::put_number(&mut out[0..2], k % 100);
    zones::put_number(&mut out[2..4], k / 100 % 100);
    zones::put_number(&mut out[4..6], k / 10000 % 100);
}

// The six bytes of a day's number, and whether they were written. A number of no day, or a part of another length, is refused and nothing changes.
#[tactic(auto, unfolding(crate::specs::Days::put_date))]
pub fn put(out: &mut [u8], k: u32) -> bool
    ensures { Put k out.old result out.new }
{
    if out.len() != 6 || !is_day(k) {
        return false;
    }
    put_digits(out, u64::from(k));
    true
}

// The days of the year 1980 + y before a month.
#[tactic(auto, using(crate::proofs::Months::counted))]
fn before_month(y: u64, m: u64) -> u64
    requires { (y < 100) × (m < 14) }
    ensures { (result ≡ before_month (1980 + y) m) × (result ≤ 366) }
{
    let days: [u16; 14] = [
        0, 0, 31, 59, 90, 120, 151, 181, 212, 243, 273, 304, 334, 365,
    ];
    let plain = u64::from(days[m as usize]);
    if y % 4 == 0 && 2 < m {
        plain + 1
    } else {
        plain
    }
}

// The month in which so many days of the year 1980 + y are behind: counted as 32 days a month it is this one or the next.
#[tactic(auto, using(crate::proofs::Calendar::month_found))]
fn month_of(y: u64, rest: u64) -> u64
    requires { (y < 100) × (rest < before_month (1980 + y) 13) }
    ensures { (before_month (1980 + y) result ≤ rest) × (rest < before_month (1980 + y) (suc result)) × (result < 13) }
{
    let m = rest / 32 + 1;
    if before_month(y, m + 1) <= rest {
        m + 1
    } else {
        m
    }
}

// The ordinal of a number YYYYMMDD; none for a number of no day.
#[tactic(auto, using(crate::proofs::Calendar::ordinal_found))]
pub fn ordinal(k: u32) -> Option<u32>
    ensures { Ordinal k result }
{
    if !is_day(k) {
        return None;
    }
    let n = u64::from(k);
    let y = n / 10000 - 1980;
    let months = before_month(y, n / 100 % 100);
    Some((y * 365 + (y + 3) / 4 + months + (n % 100 - 1)) as u32)
}

// The number YYYYMMDD of an ordinal; none for 36,525 and beyond.
#[tactic(auto, using(crate::proofs::Calendar::day_of_ordinal))]
pub fn of_ordinal(n: u32) -> Option<u32>
    ensures { OfOrdinal n result }
{
    if n >= ALL_DAYS {
        return None;
    }
    let w = u64::from(n);
    let y = w * 4 / 1461;
    let rest = w - (y * 365 + (y + 3) / 4);
    let m = month_of(y, rest);
    let months = before_month(y, m);
    Some(((1980 + y) * 10000 + m * 100 + (rest - months) + 1) as u32)
}
