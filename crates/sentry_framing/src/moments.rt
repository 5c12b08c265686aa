//! The texts of moments and of spans of time, without floats.
ghost use Rattle.std.specs.Prelude.{◌≡◌, ◌+◌, ◌-◌, ◌*◌, ◌/◌, ◌%◌, ◌^◌, ◌<◌, ◌≤◌, ◌++◌, decimal, length};
ghost use Rattle.arrayvec.specs.ArrayString.{array_string_len};
ghost use Rattle.json.specs.Print.{IsNumber};
ghost use Rattle.sentry_framing.specs.Calendar.{days_in_year, days_in_month, days_of_years, days_of_months, is_leap_year, year_of, month_of, HasDate};
ghost use Rattle.sentry_framing.specs.Moments.{two, three, fraction, seconds_text, date_text, time_text, moment_text, IsFraction, IsSeconds};

use arrayvec::ArrayString;

/// How many bytes the text of a moment has at most.
const ROOM: usize = 32;

const BILLION: u64 = 1_000_000_000;

const DAY: u64 = 86_400;

fn is_leap_year(year: u64) -> bool
    ensures { result ≡ is_leap_year year }
{
    year % 4 == 0 && (year % 100 != 0 || year % 400 == 0)
}

fn days_in_year(year: u64) -> u64
    ensures value { result ≡ days_in_year year }
    ensures bound { result ≤ 366 }
{
    if is_leap_year(year) { 366 } else { 365 }
}

fn days_in_month(year: u64, month: u64) -> u64
    ensures value { result ≡ days_in_month year month }
    ensures bound { result ≤ 31 }
{
    match month {
        2 => { if is_leap_year(year) { 29 } else { 28 } }
        4 | 6 | 9 | 11 => 30,
        _ => 31,
    }
}

fn push_two(text: &mut ArrayString<ROOM>, n: u64)
    requires small { n < 100 }
    requires room { array_string_len text.old + 2 ≤ 32 }
    ensures text { text.new.bytes ≡ text.old.bytes ++ two n }
    ensures len { array_string_len text.new ≡ array_string_len text.old + 2 }
{
    text.push((b'0' + (n / 10) as u8) as char);
    text.push((b'0' + (n % 10) as u8) as char);
}

fn push_three(text: &mut ArrayString<ROOM>, n: u64)
    requires small { n < 1000 }
    requires room { array_string_len text.old + 3 ≤ 32 }
    ensures text { text.new.bytes ≡ text.old.bytes ++ three n }
    ensures len { array_string_len text.new ≡ array_string_len text.old + 3 }
{
    text.push((b'0' + (n / 100) as u8) as char);
    push_two(text, n % 100);
}

fn push_fraction(text: &mut ArrayString<ROOM>, n: u64)
    requires small { n < 1000000000 }
    requires room { array_string_len text.old + 10 ≤ 32 }
    ensures text { text.new.bytes ≡ text.old.bytes ++ fraction n }
    ensures len { array_string_len text.new ≤ array_string_len text.old + 10 }
{
    if n == 0 {
        return;
    }
    text.push('.');
    push_three(text, n / 1_000_000);
    if n % 1_000_000 == 0 {
        return;
    }
    push_three(text, n / 1_000 % 1_000);
    if n % 1_000 == 0 {
        return;
    }
    push_three(text, n % 1_000);
}

/// Nanoseconds as seconds with a fraction: a number of JSON.
pub fn seconds_text(nanoseconds: u64) -> ArrayString<ROOM>
    ensures text { result.bytes ≡ seconds_text nanoseconds }
    ensures number { IsNumber (seconds_text nanoseconds) }
    ensures denoted { IsSeconds (seconds_text nanoseconds) nanoseconds }
{
    let mut text = ArrayString::new();
    let mut digits = itoa::Buffer::new();
    text.push_str(digits.format(nanoseconds / BILLION));
    push_fraction(&mut text, nanoseconds % BILLION);
    text
}

// The year of a day, and the day of that year from 0.
fn year_of(day: u64) -> (u64, u64)
    requires { day < 213504 }
    ensures value { (result.0, result.1) ≡ year_of day }
    ensures since { (1970 ≤ result.0) × (result.0 < 2570) }
    ensures within { result.1 < days_in_year result.0 }
    ensures counted { result.1 + days_of_years (result.0 - 1970) ≡ day }
{
    let mut year = 1970;
    let mut left = day;
    while left >= days_in_year(year) {
        left -= days_in_year(year);
        year += 1;
    }
    (year, left)
}

// The month of a day of a year, and the day of that month from 0.
fn month_of(year: u64, day: u64) -> (u64, u64)
    requires { day < days_in_year year }
    ensures value { (result.0, result.1) ≡ month_of year day }
    ensures months { (1 ≤ result.0) × (result.0 ≤ 12) }
    ensures within { result.1 < days_in_month year result.0 }
    ensures counted { result.1 + days_of_months year (result.0 - 1) ≡ day }
{
    let mut month = 1;
    let mut left = day;
    while left >= days_in_month(year, month) {
        left -= days_in_month(year, month);
        month += 1;
    }
    (month, left)
}

// The text of a day's date.
fn push_date(text: &mut ArrayString<ROOM>, day: u64)
    requires small { day < 213504 }
    requires room { array_string_len text.old + 10 ≤ 32 }
    ensures text { text.new.bytes ≡ text.old.bytes ++ date_text day }
    ensures dated { HasDate day }
    ensures len { array_string_len text.new ≡ array_string_len text.old + 10 }
{
    let (year, day_of_year) = year_of(day);
    let (month, day_of_month) = month_of(year, day_of_year);
    push_two(text, year / 100);
    push_two(text, year % 100);
    text.push('-');
    push_two(text, month);
    text.push('-');
    push_two(text, day_of_month + 1);
}

// The text of a time of day.
fn push_time(text: &mut ArrayString<ROOM>, seconds: u64)
    requires small { seconds < 86400 }
    requires room { array_string_len text.old + 8 ≤ 32 }
    ensures text { text.new.bytes ≡ text.old.bytes ++ time_text seconds }
    ensures len { array_string_len text.new ≡ array_string_len text.old + 8 }
{
    push_two(text, seconds / 3_600);
    text.push(':');
    push_two(text, seconds / 60 % 60);
    text.push(':');
    push_two(text, seconds % 60);
}

/// A moment in UTC: `2020-07-20T14:51:14.296Z`.
pub fn moment_text(nanoseconds: u64) -> ArrayString<ROOM>
    ensures text { result.bytes ≡ moment_text nanoseconds }
    ensures dated { HasDate (nanoseconds / 1000000000 / 86400) }
    ensures fraction { IsFraction (fraction (nanoseconds % 1000000000))
        (nanoseconds % 1000000000) }
{
    let mut text = ArrayString::new();
    let seconds = nanoseconds / BILLION;
    push_date(&mut text, seconds / DAY);
    text.push('T');
    push_time(&mut text, seconds % DAY);
    push_fraction(&mut text, nanoseconds % BILLION);
    text.push('Z');
    text
}
