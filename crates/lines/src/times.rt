// The parts of a row's line: its date and its times.
ghost use Rattle.std.specs.Prelude.{◌≡◌, ◌+◌, ◌/◌, ◌≤◌, ◌<◌, nat_abs};
ghost use Rattle.integers.specs.Parts.{P, N};
ghost use Rattle.integers.specs.Quotients.{floor_rem};
ghost use Rattle.text.specs.Text.{digit_of};
ghost use Rattle.lines.specs.Lines.{date_text, sign_of, days_of, time_text};
ghost use Rattle.lines.specs.Since.{epoch};

use calendar::dates::Date;
use calendar::instants::{day_of, second_of_day};
use text::decimal::digit;

pub fn date_text(date: Date) -> [u8; 10]
    ensures { result ≡ date_text date }
{
    let year = date.year as u64;
    let month = date.month as u64;
    let day = date.day as u64;
    [
        digit(year / 1000),
        digit(year / 100),
        digit(year / 10),
        digit(year),
        b'-',
        digit(month / 10),
        digit(month),
        b'-',
        digit(day / 10),
        digit(day),
    ]
}

fn sign(days: i64) -> u8
    ensures { result ≡ sign_of days }
{
    if days < 0 { b'-' } else { b'+' }
}

// A time by the sign and the digit of its days, and the second of its day.
#[derive(Clone, Copy)]
struct Moment {
    sign: u8,
    days: u8,
    second: u64,
}

// Any time, by divisions.
fn divided(time: i64) -> Moment
    ensures { (result.sign ≡ sign_of (days_of epoch time)) × (result.days ≡ digit_of (nat_abs (days_of epoch time)))
        × (result.second ≡ floor_rem time 86400) }
{
    let days = day_of(time);
    Moment {
        sign: sign(days),
        days: digit(days.unsigned_abs()),
        second: second_of_day(time),
    }
}

// Seconds from 0h of a day to a time of the day.
fn second_from(start: i64, time: i64) -> u64
    requires { (P start + N time ≤ P time + N start) × (P time + N start < P start + N time + 86400) }
    ensures { (result < 86400) × (P time + N start ≡ N time + P start + result) }
{
    (time - start) as u64
}

// Nearly every time is on the date or on a day beside it: there comparisons are enough.
fn compared(time: i64) -> Moment
    ensures { (result.sign ≡ sign_of (days_of epoch time)) × (result.days ≡ digit_of (nat_abs (days_of epoch time)))
        × (result.second ≡ floor_rem time 86400) }
{
    if time < 0 {
        if time < -86400 {
            return divided(time);
        }
        return Moment {
            sign: b'-',
            days: b'1',
            second: second_from(-86400, time),
        };
    }
    if time < 86400 {
        return Moment {
            sign: b'+',
            days: b'0',
            second: second_from(0, time),
        };
    }
    if time < 172800 {
        return Moment {
            sign: b'+',
            days: b'1',
            second: second_from(86400, time),
        };
    }
    divided(time)
}

#[derive(Clone, Copy)]
struct TwoDigits {
    tens: u8,
    units: u8,
}

// From one division.
fn two_digits(n: u64) -> TwoDigits
    requires { n < 100 }
    ensures { (result.tens ≡ digit_of (n / 10)) × (result.units ≡ digit_of n) }
{
    let tens = n / 10;
    TwoDigits {
        tens: (48 + tens) as u8,
        units: (48 + n - 10 * tens) as u8,
    }
}

// Nearly every time is a whole minute.
fn second_digits(second: u64) -> TwoDigits
    requires { second < 60 }
    ensures { (result.tens ≡ digit_of (second / 10)) × (result.units ≡ digit_of second) }
{
    if second == 0 {
        return TwoDigits {
            tens: b'0',
            units: b'0',
        };
    }
    two_digits(second)
}

// A blank, then as +0T05:12:00. The time is in seconds from 0h of the row's date.
pub fn time_text(time: i64) -> [u8; 12]
    ensures { result ≡ time_text epoch time }
{
    let moment = compared(time);
    let second = moment.second;
    let minutes = second / 60;
    let hours = second / 3600;
    let hour = two_digits(hours);
    let minute = two_digits(minutes - 60 * hours);
    let rest = second_digits(second - 60 * minutes);
    [
        b' ',
        moment.sign,
        moment.days,
        b'T',
        hour.tens,
        hour.units,
        b':',
        minute.tens,
        minute.units,
        b':',
        rest.tens,
        rest.units,
    ]
}
