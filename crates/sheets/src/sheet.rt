// The whole sheet of an order at the front of a lent buffer.
ghost use Rattle.std.specs.Prelude.{◌≡◌, ◌+◌, ◌*◌, ◌≤◌, length};
ghost use Rattle.fields.specs.Tags.{longest_town};
ghost use Rattle.lines.specs.Lines.{row_room};
ghost use Rattle.lines.specs.Since.{line_since};
ghost use Rattle.order.specs.Accepted.{Accepted};
ghost use Rattle.text.specs.Text.{put_of, front_of};
ghost use Rattle.sheets.specs.Rows.{header_text, head_text, lines_text, accepted_text, longest_sheet, sheet_call_of};

use calendar::dates::Date;
use fields::tags::LONGEST_TOWN;
use hijri::ramadan::Ramadan;
use lines::refused::{put_refused_day, put_refused_order};
use lines::row::{ROW_BYTES, put_row};
use order::reading::{MOST_ROWS, Order, read, town};
use refusals::Refusal;
use schedule::prayer_times::PrayerTimes;
use schedule::rolling::RowSuns;
use text::put::put;

// The header, and a newline before and after it.
const HEADER_BYTES: usize = 64;

const RAMADAN_HEADER_BYTES: usize = 70;

// The bytes of the longest sheet. A Ramadan sheet has thirty rows, so it is shorter.
pub const SHEET_BYTES: usize = LONGEST_TOWN as usize
    + HEADER_BYTES
    + ROW_BYTES * MOST_ROWS as usize;

// Writes a row's line, or the line of its refusal. Returns its length. The times are in seconds from 0h of the date.
fn put_line(
    buffer: &mut [u8],
    at: usize,
    ramadan: Ramadan,
    date: Date,
    worked: Result<PrayerTimes, Refusal>,
) -> usize
    ensures value { result ≡ length (line_since ramadan date worked) }
    ensures buffer_after { buffer.new ≡ put_of buffer.old at (line_since ramadan date worked) }
{
    match worked {
        Ok(times) => put_row(buffer, at, ramadan, date, times),
        Err(refusal) => put_refused_day(buffer, at, date, refusal),
    }
}

fn put_header(buffer: &mut [u8], at: usize, ramadan: Ramadan) -> usize
    ensures value { result ≡ length (header_text ramadan) }
    ensures buffer_after { buffer.new ≡ put_of buffer.old at (header_text ramadan) }
{
    if ramadan.set {
        put(
            buffer,
            at,
            b"\ndate imsak fajr sunrise dhuhr asr maghrib isha middle qiyam tomorrow\n",
        );
        return RAMADAN_HEADER_BYTES;
    }
    put(
        buffer,
        at,
        b"\ndate fajr sunrise dhuhr asr maghrib isha middle qiyam tomorrow\n",
    );
    HEADER_BYTES
}

// Writes the town and the header. Returns their length.
fn put_head(buffer: &mut [u8], ramadan: Ramadan, town: &[u8]) -> usize
    requires { (length town.now ≤ longest_town) × (longest_sheet ≤ length buffer.old) }
    ensures value { result ≡ length (head_text ramadan town.now) }
    ensures buffer_after { buffer.new ≡ front_of (head_text ramadan town.now) buffer.old }
{
    let end = town.len();
    put(buffer, 0, town);
    end + put_header(buffer, end, ramadan)
}

// Writes the lines of all rows from `at` on, and returns where they end. Each row uses what the row before it has worked.
fn put_rows(buffer: &mut [u8], at: usize, order: Order) -> usize
    requires { Accepted order × (at + order.rows * row_room order.ramadan ≤ length buffer.old) }
    ensures value { result ≡ at + length (lines_text order order.rows) }
    ensures buffer_after { buffer.new ≡ put_of buffer.old at (lines_text order order.rows) }
{
    let mut suns = RowSuns::new(order.date, order.setting);
    let mut end = at;
    for row in 0..order.rows {
        if row > 0 {
            suns = suns.next(order.setting);
        }
        let worked = suns.since_midnight(order.setting);
        end += put_line(buffer, end, order.ramadan, suns.date, worked);
    }
    end
}

fn put_accepted(buffer: &mut [u8], town: &[u8], order: Order) -> usize
    requires { Accepted order × (length town.now ≤ longest_town) × (longest_sheet ≤ length buffer.old) }
    ensures value { result ≡ length (accepted_text town.now order) }
    ensures buffer_after { buffer.new ≡ front_of (accepted_text town.now order) buffer.old }
{
    let head = put_head(buffer, order.ramadan, town);
    put_rows(buffer, head, order)
}

// Returns the length of the text. If the buffer is shorter than SHEET_BYTES, the longest text, it stays as it is and 0 is returned.
pub fn write_sheet(order: &[u8], buffer: &mut [u8]) -> usize
    ensures value { result ≡ (sheet_call_of order.now buffer.old).answer }
    ensures buffer_after { buffer.new ≡ (sheet_call_of order.now buffer.old).buffer }
{
    if buffer.len() < SHEET_BYTES {
        return 0;
    }
    let reading = read(order);
    let name = town(order, reading);
    match reading {
        Ok(record) => put_accepted(buffer, name, record),
        Err(refusal) => put_refused_order(buffer, 0, refusal),
    }
}
