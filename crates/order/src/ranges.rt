// The range of each tag's value, inside a right length. Range ends are allowed.
ghost use Rattle.std.specs.Prelude.{◌≡◌, true, cond};
ghost use Rattle.fields.specs.Values.{given_by};
ghost use Rattle.text.specs.Text.{printable};
ghost use Rattle.order.specs.Ranges.{date_fits, most_in, rows_fit, degrees_fit, minute_fits, minutes_fit, interval_fits, clock_fits};
ghost use Rattle.order.specs.Ranges.{ramadan_fits, ramadan_rows, fits_in};

use super::given::{date_in, degrees_in, form_in, minutes_in, rows_in};
use super::reading::{MOST_IN_BYTE, MOST_ROWS};
use calendar::dates::Date;
use fields::numbers::{byte, signed, unsigned};
use fields::tags;
use fields::tags::choice_fits;
use fields::values::Given;
use map_form::reading::{latitude_fits, longitude_fits};
use models::adjustments::TimeAdjustment;

const FIRST_YEAR: u32 = 1900;

const LAST_YEAR: u32 = 2199;

// The most minutes that a school adds to a prayer or subtracts from it, the most of an Isha interval, and the most from UTC to a clock,
// ahead or behind.
const MOST_MINUTES: i32 = 720;

const MOST_INTERVAL: u32 = 1440;

const MOST_CLOCK: i32 = 840;

const RAMADAN_ROWS: u32 = 30;

const MOST_IMSAK: u32 = 30;

// A shift of one day, stored plus 1.
const MOST_STORED_SHIFT: u32 = 2;

// Printable ASCII.
fn text_fits(bytes: &[u8]) -> bool
    ensures { result ≡ printable bytes.now }
{
    bytes.iter().all(|b| (32 <= *b) & (*b <= 126))
}

fn date_fits(date: Date) -> bool
    ensures { result ≡ date_fits date }
{
    (FIRST_YEAR <= date.year) & (date.year <= LAST_YEAR) & date.exists()
}

// The most rows that a value in two bytes or in one may give.
fn most_in(bytes: &[u8]) -> u32
    ensures { result ≡ most_in bytes.now }
{
    if bytes.len() == 2 {
        return MOST_ROWS;
    }
    MOST_IN_BYTE
}

// The year of the last row decides, because every day of LAST_YEAR is allowed. An order that begins before LAST_YEAR - 1 has too few rows
// to pass it.
fn rows_fit(date: Date, bytes: &[u8]) -> bool
    ensures { result ≡ rows_fit date bytes.now }
{
    let rows = rows_in(bytes);
    let most = most_in(bytes);
    if rows < 1 {
        return false;
    }
    if most < rows {
        return false;
    }
    if date.year < LAST_YEAR - 1 {
        return true;
    }
    let last = date.row(rows - 1);
    last.year <= LAST_YEAR
}

// False for a NaN: it passes no comparison.
fn degrees_fit(bytes: &[u8], low: f64, high: f64) -> bool
    ensures { result ≡ degrees_fit low high bytes.now }
{
    let x = degrees_in(bytes);
    (low <= x) & (x <= high)
}

fn minute_fits(minute: i32) -> bool
    ensures { result ≡ minute_fits minute }
{
    (-MOST_MINUTES <= minute) & (minute <= MOST_MINUTES)
}

fn minutes_fit(m: TimeAdjustment) -> bool
    ensures { result ≡ minutes_fit m }
{
    let morning = minute_fits(m.fajr) & minute_fits(m.sunrise) & minute_fits(m.dhuhr);
    morning & minute_fits(m.asr) & minute_fits(m.maghrib) & minute_fits(m.isha)
}

fn interval_fits(bytes: &[u8]) -> bool
    ensures { result ≡ interval_fits bytes.now }
{
    unsigned(bytes, 0) <= MOST_INTERVAL
}

fn clock_fits(bytes: &[u8]) -> bool
    ensures { result ≡ clock_fits bytes.now }
{
    let minutes = signed(bytes, 0);
    (-MOST_CLOCK <= minutes) & (minutes <= MOST_CLOCK)
}

// The minutes from imsak to Fajr, and the stored shift.
fn ramadan_fits(bytes: &[u8]) -> bool
    ensures { result ≡ ramadan_fits bytes.now }
{
    (byte(bytes, 0) <= MOST_IMSAK) & (byte(bytes, 1) <= MOST_STORED_SHIFT)
}

// A Ramadan sheet has the rows of its month and no others.
fn ramadan_rows(set: bool, bytes: &[u8]) -> bool
    ensures { result ≡ ramadan_rows set bytes.now }
{
    !set || rows_in(bytes) == RAMADAN_ROWS
}

// The ranges of choices are in the table of tags. The range of rows depends on the order's date too, and on whether it has tag 20.
fn fits(tag: u32, bytes: &[u8], date: Date, ramadan: bool) -> bool
    ensures { result ≡ fits_in tag bytes.now date ramadan }
{
    match tag {
        tags::TOWN => text_fits(bytes),
        tags::DATE => date_fits(date_in(bytes)),
        tags::ROWS => rows_fit(date, bytes) & ramadan_rows(ramadan, bytes),
        tags::LATITUDE => degrees_fit(bytes, -90.0, 90.0),
        tags::LONGITUDE => degrees_fit(bytes, -180.0, 180.0),
        tags::MINUTES => minutes_fit(minutes_in(bytes)),
        tags::FAJR_ANGLE => degrees_fit(bytes, 0.0, 30.0),
        tags::ISHA_ANGLE => degrees_fit(bytes, 0.0, 30.0),
        tags::ISHA_INTERVAL => interval_fits(bytes),
        tags::CLOCK => clock_fits(bytes),
        map_form::LATITUDE => latitude_fits(form_in(bytes)),
        map_form::LONGITUDE => longitude_fits(form_in(bytes)),
        tags::RAMADAN => ramadan_fits(bytes),
        _ => choice_fits(tag, byte(bytes, 0)),
    }
}

// Whether the value of a tag is in range. True if the order lacks the tag.
pub fn in_range(given: Given, tag: u32, date: Date, ramadan: bool) -> bool
    ensures { result ≡ cond ((given_by given.entry).has tag) (fits_in tag ((given_by given.entry).value tag) date ramadan) true }
{
    given
        .get(tag)
        .is_none_or(|bytes| fits(tag, bytes, date, ramadan))
}
