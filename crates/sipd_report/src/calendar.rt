ghost use Rattle.std.specs.Prelude.{◌≡◌, ◌<◌, ◌^◌};
ghost use Rattle.sipd_report.specs.Calendar as Definitions;

/// How many days 400 years have.
const DAYS_OF_400_YEARS: u64 = 146_097;

/// A date of the Gregorian calendar; months and days are counted from 1.
#[derive(Clone, Copy)]
pub struct Date {
    pub year: u64,
    pub month: u64,
    pub day: u64,
}

fn is_leap_year(year: u64) -> bool
    ensures { result ≡ Definitions.is_leap_year year }
{
    (year % 4 == 0 && year % 100 != 0) || year % 400 == 0
}

fn days_of_year(year: u64) -> u64
    ensures { result ≡ Definitions.days_of_year year }
{
    if is_leap_year(year) { 366 } else { 365 }
}

/// How many days the months of a year have.
pub fn days_of_months(year: u64) -> [u64; 12]
    ensures { result ≡ Definitions.days_of_months year }
{
    let february = if is_leap_year(year) { 29 } else { 28 };
    [31, february, 31, 30, 31, 30, 31, 31, 30, 31, 30, 31]
}

/// The month of a day of a year, which is counted from 0, and its number in that month.
fn month_of(months: &[u64; 12], day: u64) -> (u64, u64)
    requires { day < 2 ^ 62 }
    ensures { result ≡ Definitions.month_among months.now 1 day }
{
    let mut month = 1;
    let mut left = day;
    for days in months {
        if left < *days {
            return (month, left + 1);
        }
        left -= *days;
        month += 1;
    }
    (month, left + 1)
}

/// A day of a year, which is counted from 0.
fn day_of_year(year: u64, day: u64) -> Date
    requires { day < 2 ^ 62 }
    ensures { result ≡ Definitions.day_of_year year day }
{
    let (month, day) = month_of(&days_of_months(year), day);
    Date { year, month, day }
}

/// The date that is so many days behind 1 January 1970.
pub fn date_of(days: u64) -> Date
    requires { days < 2 ^ 60 }
    ensures { result ≡ Definitions.date_of days }
{
    let mut year = 1970 + 400 * (days / DAYS_OF_400_YEARS);
    let mut day = days % DAYS_OF_400_YEARS;
    for _ in 0..400_u64 {
        let length = days_of_year(year);
        if day < length {
            return day_of_year(year, day);
        }
        day -= length;
        year += 1;
    }
    day_of_year(year, day)
}
