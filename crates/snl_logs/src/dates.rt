//! The day of a date.

ghost use Rattle.std.specs.Prelude.{◌≤◌, ◌<◌, IfSome};

/// Whether a year has 366 days.
fn is_leap(year: u64) -> bool {
    year % 4 == 0 && (year % 100 != 0 || year % 400 == 0)
}

/// How many days a month has.
fn days_in(year: u64, month: u64) -> u64
    ensures { result ≤ 31 }
{
    match month {
        4 | 6 | 9 | 11 => 30,
        2 if is_leap(year) => 29,
        2 => 28,
        _ => 31,
    }
}

/// How many days of a year come before a month.
fn days_before_month(year: u64, month: u64) -> u64
    ensures { result ≤ 335 }
{
    let before = match month {
        1 => 0,
        2 => 31,
        3 => 59,
        4 => 90,
        5 => 120,
        6 => 151,
        7 => 181,
        8 => 212,
        9 => 243,
        10 => 273,
        11 => 304,
        _ => 334,
    };
    if month > 2 && is_leap(year) {
        before + 1
    } else {
        before
    }
}

/// How many days come before a year, from 1 January of the year 1 on.
fn days_before_year(year: u64) -> u64
    requires late { 1970 ≤ year }
    requires early { year ≤ 2500 }
    ensures least { 719162 ≤ result }
    ensures most { result ≤ 912741 }
{
    let years = year - 1;
    years * 365 + years / 4 - years / 100 + years / 400
}

/// How many days a date from 1970 to 2500 is behind 1 January 1970; None where there is no such date.
pub fn day_of(year: u64, month: u64, day: u64) -> Option<u64>
    ensures { IfSome result (λ days. days < 200000) }
{
    if year < 1970 || year > 2500 || month == 0 || month > 12 {
        return None;
    }
    if day == 0 || day > days_in(year, month) {
        return None;
    }
    Some(days_before_year(year) - 719_162 + days_before_month(year, month) + day - 1)
}

/// The month and the day in it of a day of a year, from 0 on.
fn month_of(year: u64, day: u64) -> (u64, u64) {
    let mut left = day;
    for month in 1..12u64 {
        let days = days_in(year, month);
        if left < days {
            return (month, left.saturating_add(1));
        }
        left -= days;
    }
    (12, left.saturating_add(1))
}

/// The year, the month and the day of a day behind 1 January 1970; None behind the year 2500.
pub fn date_of(days: u64) -> Option<(u64, u64, u64)> {
    let mut left = days;
    for year in 1970..2501u64 {
        let size = if is_leap(year) { 366 } else { 365 };
        if left < size {
            let (month, day) = month_of(year, left);
            return Some((year, month, day));
        }
        left -= size;
    }
    None
}
