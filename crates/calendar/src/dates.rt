// Dates and the numbers of their days: unit.rs's Stride on a date, with the functions that chrono gave it.
ghost use Rattle.std.specs.Prelude.{◌≡◌, ◌≤◌, ◌<◌};
ghost use Rattle.calendar.specs.Gregorian.{date_of, exists_of};
ghost use Rattle.calendar.specs.Days.{ordinal_of, of_ordinal_of, day_number_of, weekday_of};
ghost use Rattle.calendar.specs.Answers.{tomorrow_of, yesterday_of, next_date_of, of_day_of, row_date_of};

use super::counts::{days_before_year, since_first, year_of};
use super::months::{days_before, month_days, month_of};
use super::years::is_leap_year;

// Every month has these days, so up to there no month has to be looked up.
const SHORTEST_MONTH: u32 = 28;

#[repr(C)]
#[derive(Clone, Copy)]
pub struct Date {
    pub year: u32,
    pub month: u32,
    pub day: u32,
}

// The date of a day of the year.
#[tactic(auto, unfolding(crate::specs::Days::of_ordinal_of))]
fn of_ordinal(year: u32, ordinal: u32) -> Date
    requires { (0 < ordinal) × (ordinal ≤ 366) }
    ensures { result ≡ of_ordinal_of year ordinal }
{
    let leap = is_leap_year(year);
    let month = month_of(leap, ordinal);
    Date {
        year,
        month,
        day: ordinal - days_before(leap, month),
    }
}

impl Date {
    pub fn new(year: u32, month: u32, day: u32) -> Date
        ensures { result ≡ date_of year month day }
    {
        Date { year, month, day }
    }

    #[tactic(auto, unfolding(crate::specs::Gregorian::exists_of), using(crate::proofs::MonthTables::exists_up_to_28))]
    pub fn exists(self) -> bool
        ensures { result ≡ exists_of self }
    {
        match self.day {
            0 => false,
            1..=SHORTEST_MONTH => (1..=12).contains(&self.month),
            day => day <= month_days(is_leap_year(self.year), self.month),
        }
    }

    // The day of the year; 0 for a date that does not exist, so callers need not check first.
    pub fn ordinal(self) -> u32
        ensures { result ≡ ordinal_of self }
    {
        if !self.exists() {
            return 0;
        }
        days_before(is_leap_year(self.year), self.month) + self.day
    }

    // The next day of the month, or the first of the next month or year.
    pub fn tomorrow(self) -> Date
        ensures { result ≡ tomorrow_of self }
    {
        let Date { year, month, day } = self;
        if !self.exists() {
            self
        } else if day < SHORTEST_MONTH || day < month_days(is_leap_year(year), month) {
            Date::new(year, month, day + 1)
        } else if month < 12 {
            Date::new(year, month + 1, 1)
        } else if year < u32::MAX {
            Date::new(year + 1, 1, 1)
        } else {
            self
        }
    }

    // The previous day of the month, or the last of the previous month or year.
    pub fn yesterday(self) -> Date
        ensures { result ≡ yesterday_of self }
    {
        let Date { year, month, day } = self;
        if !self.exists() {
            self
        } else if day > 1 {
            Date::new(year, month, day - 1)
        } else if month > 1 {
            Date::new(year, month - 1, month_days(is_leap_year(year), month - 1))
        } else if year > 0 {
            Date::new(year - 1, 12, 31)
        } else {
            self
        }
    }

    // The source's own signature: `next_date_of` speaks of `fwd`.
    pub fn next_date(self, fwd: bool) -> Date
        ensures { result ≡ next_date_of self fwd }
    {
        if fwd {
            self.tomorrow()
        } else {
            self.yesterday()
        }
    }

    // Days from 1970-01-01.
    pub fn day_number(self) -> i64
        ensures { result ≡ day_number_of self }
    {
        let days = days_before_year(self.year as u64) + self.ordinal() as u64;
        days as i64 - 719529
    }

    // The date of a day by its number, from 0000-01-01 to the last date of the year 4294967295.
    pub fn of_day(day: i64) -> Date
        ensures { result ≡ of_day_of day }
    {
        let n = since_first(day);
        let year = year_of(n);
        of_ordinal(year as u32, (n + 1 - days_before_year(year)) as u32)
    }

    // The date of a row of a timetable that begins on this date: `row` days later.
    pub fn row(self, row: u32) -> Date
        ensures { result ≡ row_date_of self row }
    {
        if !self.exists() {
            self
        } else if self.day <= SHORTEST_MONTH && row <= SHORTEST_MONTH - self.day {
            Date::new(self.year, self.month, self.day + row)
        } else {
            Date::of_day(self.day_number() + row as i64)
        }
    }
}

// The day of the week, 0 on a Sunday.
#[tactic(auto, unfolding(crate::specs::Days::weekday_of))]
pub fn weekday(day: i64) -> u32
    ensures { result ≡ weekday_of day }
{
    (day.rem_euclid(7) as u32 + 4) % 7
}
