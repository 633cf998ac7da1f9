// The two calendars, the Julian Day and the rounded minute as exports, for runs against other calendars. A host does not link them.
ghost use Rattle.std.specs.Prelude.{◌≡◌};
ghost use Rattle.calendar.specs.Answers.{tomorrow_of, next_date_of, of_day_of, row_date_of};
ghost use Rattle.calendar.specs.Days.{ordinal_of, day_number_of, weekday_of};
ghost use Rattle.hijri.specs.Ramadan.{first_of_ramadan_of, ramadan_start_of};
ghost use Rattle.julian.specs.Julian.{date_julian_day_of};
ghost use Rattle.models.specs.Numbers.{rounding_of};
ghost use Rattle.whole_minutes.specs.Times.{sat_of, rounded_of};
ghost use Rattle.probes.specs.Dates.{tabular_of_day, tabular_day_of};

use calendar::dates::{Date, weekday};
use hijri::dates::Tabular;
use hijri::ramadan::{first_of_ramadan, is_ramadan_start};
use julian::day::date_julian_day;
use models::numbered::Numbered;
use models::rounding::Rounding;
use whole_minutes::times::rounded_minute;

#[unsafe(no_mangle)]
pub extern "C" fn probe_tomorrow(date: Date) -> Date
    ensures { result ≡ tomorrow_of date }
{
    date.tomorrow()
}

#[unsafe(no_mangle)]
pub extern "C" fn probe_next_date(date: Date, fwd: bool) -> Date
    ensures { result ≡ next_date_of date fwd }
{
    date.next_date(fwd)
}

#[unsafe(no_mangle)]
pub extern "C" fn probe_ordinal(date: Date) -> u32
    ensures { result ≡ ordinal_of date }
{
    date.ordinal()
}

#[unsafe(no_mangle)]
pub extern "C" fn probe_day_number(date: Date) -> i64
    ensures { result ≡ day_number_of date }
{
    date.day_number()
}

#[unsafe(no_mangle)]
pub extern "C" fn probe_of_day(day: i64) -> Date
    ensures { result ≡ of_day_of day }
{
    Date::of_day(day)
}

#[unsafe(no_mangle)]
pub extern "C" fn probe_row_date(first: Date, row: u32) -> Date
    ensures { result ≡ row_date_of first row }
{
    first.row(row)
}

#[unsafe(no_mangle)]
pub extern "C" fn probe_weekday(day: i64) -> u32
    ensures { result ≡ weekday_of day }
{
    weekday(day)
}

#[unsafe(no_mangle)]
pub extern "C" fn probe_julian_day(date: Date) -> f64
    ensures { result ≡ date_julian_day_of date }
{
    date_julian_day(date)
}

// `rounding` is a number.
#[unsafe(no_mangle)]
pub extern "C" fn probe_rounded_minute(time: i64, rounding: u32) -> i64
    ensures { result ≡ sat_of (rounded_of (rounding_of rounding) time) }
{
    rounded_minute(time, Rounding::of_number(rounding))
}

// The tabular date of a day: its year, month and day in the struct of the other calendar.
#[unsafe(no_mangle)]
pub extern "C" fn probe_tabular(day: i64) -> Date
    ensures { result ≡ tabular_of_day day }
{
    let tabular = Tabular::of_day(day);
    Date::new(tabular.year, tabular.month, tabular.day)
}

// The day of a tabular date.
#[unsafe(no_mangle)]
pub extern "C" fn probe_tabular_day(year: u32, month: u32, day: u32) -> i64
    ensures { result ≡ tabular_day_of year month day }
{
    Tabular::new(year, month, day).day_number()
}

#[unsafe(no_mangle)]
pub extern "C" fn probe_first_of_ramadan(year: u32) -> i64
    ensures { result ≡ first_of_ramadan_of year }
{
    first_of_ramadan(year)
}

#[unsafe(no_mangle)]
pub extern "C" fn probe_is_ramadan_start(day: i64, shift: i32) -> bool
    ensures { result ≡ ramadan_start_of day shift }
{
    is_ramadan_start(day, shift)
}
