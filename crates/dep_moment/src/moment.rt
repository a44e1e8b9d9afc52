//! A moment, and its day and time of day in UTC as texts.
ghost use Rattle.std.specs.Prelude.{◌≡◌, ◌<◌, ◌≤◌, min, IsAscii};
ghost use Rattle.httpdate.specs.Text.{two_digits, four_digits};
ghost use Rattle.dep_moment.specs.Civil.{civil_of, day_text, rfc3339_text, http_text};
ghost use Rattle.dep_types.specs.Limits.{greatest_moment};

use dep_types::GREATEST_MOMENT;
use httpdate::HttpDate;
use jiff::ToSpan;
use jiff::civil::date;
use std::marker::Model;

const SECONDS_IN_DAY: u64 = 86_400;

/// A moment in whole seconds since 1 January 1970, without leap seconds. The greatest is the last second of the
/// year 9999.
#[derive(Clone, Copy, PartialEq, Eq, PartialOrd, Ord)]
pub struct Moment {
    secs: u64,
}

impl Model for Moment {
    ghost use Rattle.std.specs.Prelude.{ℕ, ◌≤◌};
    ghost use Rattle.dep_types.specs.Limits.{greatest_moment};

    ghost Value = { ℕ };

    ghost view = { λ m. m.secs };

    ghost invariant = { λ m. m.secs ≤ greatest_moment };

    ghost inverse = { λ secs. record { secs = secs } };
}

impl Moment {
    /// The moment of these seconds since 1970, or the greatest where they lie after it.
    pub fn new(secs: u64) -> Self
        ensures { result ≡ min secs greatest_moment }
    {
        Moment {
            secs: secs.min(GREATEST_MOMENT),
        }
    }

    /// The seconds since 1970.
    pub fn secs(self) -> u64
        ensures seconds { result ≡ self }
        ensures greatest { result ≤ greatest_moment }
    {
        self.secs
    }

    /// The date of a header field, as `Mon, 16 Apr 2018 00:00:00 GMT` (IMF-fixdate, RFC 9110, section 5.6.7).
    pub fn http_date(self) -> [u8; 29]
        ensures { result ≡ http_text self }
    {
        let Ok(date) = HttpDate::from_unix_secs(self.secs) else {
            unreachable!();
        };
        date.to_bytes()
    }

    /// The day alone, as `2018-04-16`: the first ten bytes of [`Moment::rfc3339`].
    pub fn civil_date(self) -> [u8; 10]
        ensures { result ≡ day_text self }
    {
        let Day { year, month, day } = day_of(self.secs);
        let [year_1, year_2, year_3, year_4] = four(year);
        let [month_1, month_2] = two(month);
        let [day_1, day_2] = two(day);
        [
            year_1, year_2, year_3, year_4, b'-', month_1, month_2, b'-', day_1, day_2,
        ]
    }

    /// The day and the time of day in UTC, as `2018-04-16T00:00:00Z` (RFC 3339).
    pub fn rfc3339(self) -> [u8; 20]
        ensures text { result ≡ rfc3339_text self }
        ensures ascii { IsAscii result }
    {
        let [
            year_1,
            year_2,
            year_3,
            year_4,
            _,
            month_1,
            month_2,
            _,
            day_1,
            day_2,
        ] = self.civil_date();
        let rest = self.secs % SECONDS_IN_DAY;
        let [hour_1, hour_2] = two((rest / 3_600) as u8);
        let [minute_1, minute_2] = two((rest % 3_600 / 60) as u8);
        let [second_1, second_2] = two((rest % 60) as u8);
        [
            year_1, year_2, year_3, year_4, b'-', month_1, month_2, b'-', day_1, day_2, b'T',
            hour_1, hour_2, b':', minute_1, minute_2, b':', second_1, second_2, b'Z',
        ]
    }
}

// A day of the Gregorian calendar.
#[derive(Clone, Copy)]
struct Day {
    year: u16,
    month: u8,
    day: u8,
}

// The day of these seconds.
fn day_of(secs: u64) -> Day
    requires { secs ≤ greatest_moment }
    ensures year { result.year ≡ (civil_of secs).year }
    ensures month { result.month ≡ (civil_of secs).month }
    ensures day { result.day ≡ (civil_of secs).day }
    ensures digits { (result.year < 10000) × (result.month < 100) × (result.day < 100) }
{
    let days = secs / SECONDS_IN_DAY;
    let Ok(day) = date(1970, 1, 1).checked_add((days as i64).days()) else {
        unreachable!();
    };
    Day {
        year: day.year().unsigned_abs(),
        month: day.month().unsigned_abs(),
        day: day.day().unsigned_abs(),
    }
}

// A number below 100, in two digits.
fn two(n: u8) -> [u8; 2]
    requires { n < 100 }
    ensures { result ≡ two_digits n }
{
    [b'0' + n / 10, b'0' + n % 10]
}

// A number below 10,000, in four digits.
fn four(n: u16) -> [u8; 4]
    requires { n < 10000 }
    ensures { result ≡ four_digits n }
{
    let [thousands, hundreds] = two((n / 100) as u8);
    let [tens, ones] = two((n % 100) as u8);
    [thousands, hundreds, tens, ones]
}
