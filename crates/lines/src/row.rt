// A row's line: its date and its times.
ghost use Rattle.std.specs.Prelude.{◌≡◌, ◌∷◌, ◌≤◌, length};
ghost use Rattle.text.specs.Text.{put_of};
ghost use Rattle.lines.specs.Lines.{imsak_of, nine_of, columns_of, row_bytes, row_room};
ghost use Rattle.lines.specs.Since.{row_since};

use super::times::{date_text, time_text};
use calendar::dates::Date;
use hijri::ramadan::Ramadan;
use schedule::prayer_times::PrayerTimes;
use text::put::put;

const DATE_BYTES: usize = 10;

// A blank and the time.
const TIME_BYTES: usize = 12;

// What a full row takes: its date, nine times and the newline.
pub const ROW_BYTES: usize = DATE_BYTES + 9 * TIME_BYTES + 1;

// A row of a Ramadan sheet has a time more.
const RAMADAN_ROW_BYTES: usize = ROW_BYTES + TIME_BYTES;

// What a full row takes, which a Ramadan sheet has imsak in.
#[tactic(auto, unfolding(crate::specs::Lines::row_room))]
pub fn row_bytes(ramadan: Ramadan) -> usize
    ensures { result ≡ row_room ramadan }
{
    if ramadan.set {
        RAMADAN_ROW_BYTES
    } else {
        ROW_BYTES
    }
}

// So many minutes before Fajr, or the earliest instant that 64 bits hold.
fn imsak(minutes: u32, fajr: i64) -> i64
    ensures { result ≡ imsak_of minutes fajr }
{
    let seconds = minutes as i64 * 60;
    if fajr < i64::MIN + seconds {
        return i64::MIN;
    }
    fajr - seconds
}

// Imsak and the nine, in the header's order.
fn ten(imsak: i64, times: PrayerTimes) -> [i64; 10]
    ensures { result ≡ imsak ∷ nine_of times }
{
    [
        imsak,
        times.fajr,
        times.sunrise,
        times.dhuhr,
        times.asr,
        times.maghrib,
        times.isha,
        times.middle_of_the_night,
        times.qiyam,
        times.fajr_tomorrow,
    ]
}

fn fill_row(line: &mut [u8], date: Date, times: &[i64])
    requires { (length times.now ≤ 10) × (length line.old ≡ row_bytes (length times.now)) }
    ensures { line.new ≡ row_since date times.now }
{
    put(line, 0, &date_text(date));
    for (i, time) in times.iter().enumerate() {
        put(line, DATE_BYTES + TIME_BYTES * i, &time_text(*time));
    }
    put(line, DATE_BYTES + TIME_BYTES * times.len(), b"\n");
}

// The line is written in its place, once the buffer is known to have room for all of it.
fn put_columns(buffer: &mut [u8], at: usize, date: Date, times: &[i64]) -> usize
    requires { length times.now ≤ 10 }
    ensures value { result ≡ length (row_since date times.now) }
    ensures buffer_after { buffer.new ≡ put_of buffer.old at (row_since date times.now) }
{
    let bytes = DATE_BYTES + TIME_BYTES * times.len() + 1;
    if at > buffer.len() {
        return bytes;
    }
    if bytes > buffer.len() - at {
        return bytes;
    }
    let end = at + bytes;
    fill_row(&mut buffer[at..end], date, times);
    bytes
}

// As `put` does; returns the line's length. The times are in seconds from 0h of the date. A row without imsak has the nine behind it.
pub fn put_row(
    buffer: &mut [u8],
    at: usize,
    ramadan: Ramadan,
    date: Date,
    times: PrayerTimes,
) -> usize
    ensures value { result ≡ length (row_since date (columns_of ramadan times)) }
    ensures buffer_after { buffer.new ≡ put_of buffer.old at (row_since date (columns_of ramadan times)) }
{
    let ten = ten(imsak(ramadan.imsak, times.fajr), times);
    if ramadan.set {
        return put_columns(buffer, at, date, &ten);
    }
    put_columns(buffer, at, date, &ten[1..])
}
