//! `date_of` and `put_date`: the date of a day, such as `2009-01-03`.

ghost use Rattle.std.specs.Prelude.{◌≡◌, ◌<◌, ◌≤◌, ◌^◌, ◌++◌, OnOk};
ghost use Rattle.table_picture.specs.Date.{date_by, date_from, date_in, date_of, date_text, day_of_year, month_of_year, two_digits, year_of_cycle};

use crate::Memory;
use net_addr::{put_number, put_text};

/// A date of the Gregorian calendar.
#[derive(Clone, Copy)]
pub(crate) struct Date {
    year: u64,
    month: u64,
    day: u64,
}

/// Returns which of 400 years a day of them is in.
fn year_of_cycle(day: u64) -> u64
    requires { day < 2 ^ 32 }
    ensures is { result ≡ year_of_cycle day }
    ensures few { result < 2 ^ 32 }
{
    (day - day / 1460 + day / 36524 - day / 146_096) / 365
}

/// Returns which day of this year it is.
fn day_of_year(day: u64, year: u64) -> u64
    requires day { day < 2 ^ 32 }
    requires year { year < 2 ^ 32 }
    ensures is { result ≡ day_of_year day year }
    ensures few { result < 2 ^ 32 }
{
    day.saturating_sub(365 * year + year / 4 - year / 100)
}

/// Returns the month of a day of a year, counted from March.
fn month_of_year(day: u64) -> u64
    requires { day < 2 ^ 32 }
    ensures { result ≡ month_of_year day }
{
    (5 * day + 2) / 153
}

/// Returns the date of a day of a year, of which months are counted from March.
fn date_in(year: u64, month: u64, day: u64) -> Date
    requires year { year < 2 ^ 40 }
    requires month { month < 2 ^ 40 }
    requires day { day < 2 ^ 32 }
    ensures { result ≡ date_in year month day }
{
    let is_own = month < 10;
    Date {
        year: if is_own { year } else { year + 1 },
        month: if is_own { month + 3 } else { month - 9 },
        day: day.saturating_sub((153 * month + 2) / 5) + 1,
    }
}

/// Returns the date of a day that is counted from 1 January 1970.
pub(crate) fn date_of(days: u32) -> Date
    ensures { result ≡ date_of days }
{
    let days = u64::from(days) + 719_468;
    let day = days % 146_097;
    let year = year_of_cycle(day);
    let own = day_of_year(day, year);
    date_in(400 * (days / 146_097) + year, month_of_year(own), own)
}

/// Returns the last two digits of a number.
fn two_digits(number: u64) -> [u8; 2]
    ensures { result ≡ two_digits number }
{
    [48 + (number / 10 % 10) as u8, 48 + (number % 10) as u8]
}

/// Appends a date, as `2009-01-03`.
#[tactic(auto, unfolding(crate::specs::Date::date_text))]
pub(crate) fn put_date(date: Date, out: &mut Vec<u8>) -> Result<(), Memory>
    ensures { OnOk result (out.new.items ≡ out.old.items ++ date_text date) }
{
    let (month, day) = (two_digits(date.month), two_digits(date.day));
    put_number(b"", date.year, out)?;
    put_text(b"-", out)?;
    put_text(&month, out)?;
    put_text(b"-", out)?;
    put_text(&day, out)?;
    Ok(())
}
