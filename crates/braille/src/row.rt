// A row's cells.
ghost use Rattle.std.specs.Prelude.{◌≡◌, ◌≤◌, length, Ok};
ghost use Rattle.text.specs.Text.{put_of};
ghost use Rattle.braille.specs.Braille.{dots_of, SixDots};
ghost use Rattle.braille.specs.Cells.{six_of, refused_cells, row_cells, row_length};

use super::cells::{day_cells, time_cells};
use calendar::dates::Date;
use refusals::Refusal;
use schedule::prayer_times::PrayerTimes;
use text::put::put;

// The number sign and two digits.
const DAY_CELLS: usize = 3;

// A blank, the number sign and four digits.
const TIME_CELLS: usize = 6;

// A row's cells: its day and six times.
pub const ROW_CELLS: usize = DAY_CELLS + 6 * TIME_CELLS;

fn six(times: PrayerTimes) -> [i64; 6]
    ensures { result ≡ six_of times }
{
    [
        times.fajr,
        times.sunrise,
        times.dhuhr,
        times.asr,
        times.maghrib,
        times.isha,
    ]
}

// The day and six times.
fn full_row(date: Date, times: PrayerTimes, clock: i32) -> [u8; ROW_CELLS]
    ensures { result ≡ row_cells date (Ok times) clock }
{
    let mut cells = [0u8; ROW_CELLS];
    put(&mut cells, 0, &day_cells(date));
    let six = six(times);
    for (i, time) in six.iter().enumerate() {
        put(
            &mut cells,
            DAY_CELLS + TIME_CELLS * i,
            &time_cells(clock, *time),
        );
    }
    cells
}

// The day and 36 blanks.
fn day_alone(date: Date) -> [u8; ROW_CELLS]
    ensures { result ≡ refused_cells date }
{
    let mut blanks = [0u8; ROW_CELLS];
    put(&mut blanks, 0, &day_cells(date));
    blanks
}

fn row_cells(date: Date, worked: Result<PrayerTimes, Refusal>, clock: i32) -> [u8; ROW_CELLS]
    ensures { result ≡ row_cells date worked clock }
{
    match worked {
        Ok(times) => full_row(date, times, clock),
        Err(_) => day_alone(date),
    }
}

// The raised dots of cells. A cell's raised dots are its set bits.
fn dots(cells: &[u8]) -> u32
    requires { (length cells.now ≤ row_length) × SixDots cells.now }
    ensures { result ≡ dots_of cells.now }
{
    let mut sum: u32 = 0;
    for cell in cells {
        sum += cell.count_ones();
    }
    sum
}

// Writes the row's cells at an offset, as `put` does. Returns their dots, whether they have room or not.
pub fn put_cells(
    buffer: &mut [u8],
    at: usize,
    date: Date,
    worked: Result<PrayerTimes, Refusal>,
    clock: i32,
) -> u32
    ensures value { result ≡ dots_of (row_cells date worked clock) }
    ensures buffer_after { buffer.new ≡ put_of buffer.old at (row_cells date worked clock) }
{
    let cells = row_cells(date, worked, clock);
    put(buffer, at, &cells);
    dots(&cells)
}
