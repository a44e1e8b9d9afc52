//! Laws of the calendar and of the texts.
ghost use Rattle.std.specs.Prelude.{◌≡◌, ◌≤◌, ℕ, codes, take};
ghost use Rattle.dep_moment.specs.Civil.{Civil, IsCivilOf, civil_of, day_text, rfc3339_text, http_text};
ghost use Rattle.dep_types.specs.Limits.{greatest_moment};

/// Each moment has a day and a time of day.
pub fn moment_has_civil()
    ensures { (secs : ℕ) → secs ≤ greatest_moment → IsCivilOf secs (civil_of secs) }
{}

/// No moment has two.
pub fn moment_has_one_civil()
    ensures { (secs : ℕ) → (a b : Civil) → IsCivilOf secs a → IsCivilOf secs b → a ≡ b }
{}

/// The day stands before the time in the text of a moment.
pub fn moment_begins_with_day()
    ensures { (secs : ℕ) → take 10 (rfc3339_text secs) ≡ day_text secs }
{}

/// The text of a moment in a header field.
pub fn http_date_of_2018()
    ensures { http_text 1523836800 ≡ codes "Mon, 16 Apr 2018 00:00:00 GMT" }
{}

/// The text of a moment in a document.
pub fn rfc3339_of_2018()
    ensures { rfc3339_text 1523836800 ≡ codes "2018-04-16T00:00:00Z" }
{}

/// The text of the greatest moment.
pub fn rfc3339_of_greatest()
    ensures { rfc3339_text greatest_moment ≡ codes "9999-12-31T23:59:59Z" }
{}

/// The first moment, in both texts.
pub fn texts_of_first()
    ensures http { http_text 0 ≡ codes "Thu, 01 Jan 1970 00:00:00 GMT" }
    ensures rfc3339 { rfc3339_text 0 ≡ codes "1970-01-01T00:00:00Z" }
{}

/// The example of RFC 9110, section 5.6.7.
pub fn http_date_of_rfc9110()
    ensures { http_text 784111777 ≡ codes "Sun, 06 Nov 1994 08:49:37 GMT" }
{}

/// An example of RFC 3339, section 5.8: `1996-12-19T16:39:57-08:00`, as it reads in UTC.
pub fn rfc3339_of_rfc3339()
    ensures { rfc3339_text 851042397 ≡ codes "1996-12-20T00:39:57Z" }
{}

/// 2000 is a leap year, and 2100 is none.
pub fn texts_about_leap_days()
    ensures leap { http_text 951868799 ≡ codes "Tue, 29 Feb 2000 23:59:59 GMT" }
    ensures common { http_text 4107542400 ≡ codes "Mon, 01 Mar 2100 00:00:00 GMT" }
{}
