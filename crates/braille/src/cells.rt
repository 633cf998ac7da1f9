// The parts of a row: the cells of its day and of a time.
ghost use Rattle.std.specs.Prelude.{◌≡◌};
ghost use Rattle.braille.specs.Braille.{digit_cell};
ghost use Rattle.braille.specs.Cells.{day_cells, clock_minute_of, time_cells};

use calendar::dates::Date;
use calendar::instants::{MINUTES_IN_DAY, second_of_day};

// Dots 3456.
const NUMBER_SIGN: u8 = 0x3c;

// The letters j and a to i: 0 and 1 to 9.
const DIGITS: [u8; 10] = [0x1a, 0x01, 0x03, 0x09, 0x19, 0x11, 0x0b, 0x1b, 0x13, 0x0a];

// A number's last digit.
fn digit(n: u64) -> u8
    ensures { result ≡ digit_cell n }
{
    DIGITS[(n % 10) as usize]
}

pub fn day_cells(date: Date) -> [u8; 3]
    ensures { result ≡ day_cells date }
{
    let day = date.day as u64;
    [NUMBER_SIGN, digit(day / 10), digit(day)]
}

// The minute of the day by the clock. Instant and clock are each taken within the day before they are added, so the sum fits for all
// values.
fn minute_of_day(clock: i32, time: i64) -> u64
    ensures { result ≡ clock_minute_of clock time }
{
    (second_of_day(time) + second_of_day(clock as i64 * 60)) / 60 % MINUTES_IN_DAY
}

// A blank, the number sign, the hour and the minute.
pub fn time_cells(clock: i32, time: i64) -> [u8; 6]
    ensures { result ≡ time_cells clock time }
{
    let minute = minute_of_day(clock, time);
    let hour = minute / 60;
    let rest = minute % 60;
    [
        0,
        NUMBER_SIGN,
        digit(hour / 10),
        digit(hour),
        digit(rest / 10),
        digit(rest),
    ]
}
