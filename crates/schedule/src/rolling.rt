// Rows that follow one another (added). The date of the next row is worked from the next position of the sun alone: two of its three days,
// and the hour of its Fajr, are the row's own. What depends on the place or on the parameters alone is worked with the first row's.
ghost use Rattle.std.specs.Prelude.{◌≡◌};
ghost use Rattle.calendar.specs.Answers.{yesterday_of, tomorrow_of};
ghost use Rattle.julian.specs.Julian.{date_julian_day_of};
ghost use Rattle.ops.specs.Coordinates.{position_of};
ghost use Rattle.ops.specs.Shared.{place_of};
ghost use Rattle.schedule.specs.Each.{NearIn};
ghost use Rattle.schedule.specs.RowSuns.{courses_of, day_sun_of, row_suns_of, next_row_suns_of, three_suns_of, row_suns_hours_of, row_suns_since_of};
ghost use Rattle.schedule.specs.RowSuns.{row_suns_worked_of, row_suns_fajr_of};

use super::angles::{TwilightSines, asr_hour};
use super::hours::RowHours;
use crate::hours::{ThreeSuns, numbered};
use crate::prayer_times::{PrayerTimes, fajr_alone};
use calendar::dates::Date;
use julian::day::date_julian_day;
use models::rules::Rules;
use models::setting::Setting;
use ops::coordinates::{Equatorial, MeanElements, place, sidereal_time};
use ops::transit::{Course, Observer};
use refusals::Refusal;
use solar::hours::hour_numbers;
use solar::times::SolarTime;
use unit::Coordinates;

// The sun's course over the place on a day, and its times, or the number of the time that it lacks.
#[derive(Clone, Copy)]
pub struct DaySun {
    pub course: Course,
    pub times: Result<SolarTime, u32>,
}

// What a row is worked from: the sun of its date and of the two days after it, and the hours of Fajr's angle on the date and on the next.
// The positions at 0h of the second and the third day after the date, and the Julian Day of the third, are kept for the next row.
#[derive(Clone, Copy)]
pub struct RowSuns {
    pub date: Date,
    pub third: f64,
    pub sines: TwilightSines,
    pub at_second: Equatorial,
    pub at_third: Equatorial,
    pub today: DaySun,
    pub tomorrow: DaySun,
    pub after: DaySun,
    pub fajr: Option<i32>,
    pub fajr_tomorrow: Option<i32>,
}

// The sun's courses on a date and on the two days after it, and what the next one is made from.
#[derive(Clone, Copy)]
pub struct Courses {
    pub today: Course,
    pub tomorrow: Course,
    pub after: Course,
    pub third: f64,
    pub at_second: Equatorial,
    pub at_third: Equatorial,
}

// The greatest year that a u32 holds. Its last date is its own tomorrow.
const GREATEST_YEAR: u32 = 4294967295;

// The years in which each Julian Day is known to be the one before it and 1.0: those of an order, and some on either side.
const ROLLS_FROM: u32 = 1899;

const ROLLS_TO: u32 = 2203;

// The position on the day before the date's tomorrow. In every year but the last that day is the date itself, whose position is at hand.
fn place_before_tomorrow(date: Date, at_date: Equatorial) -> Equatorial
    requires { at_date ≡ place_of (position_of date) }
    ensures { result ≡ place_of (position_of (yesterday_of (tomorrow_of date))) }
{
    if date.year < GREATEST_YEAR {
        return at_date;
    }
    place(date.tomorrow().yesterday())
}

// The Julian Day of a date's tomorrow, from the date's own. A date that does not exist is its own tomorrow.
fn julian_day_after(date: Date, tomorrow: Date, julian_day: f64) -> f64
    requires { (tomorrow ≡ tomorrow_of date) × (julian_day ≡ date_julian_day_of date) }
    ensures { result ≡ date_julian_day_of (tomorrow_of date) }
{
    if date.day != tomorrow.day && ROLLS_FROM <= date.year && date.year <= ROLLS_TO {
        return julian_day + 1.0;
    }
    date_julian_day(tomorrow)
}

impl Courses {
    fn new(date: Date, coordinates: Coordinates) -> Courses
        ensures { result ≡ courses_of date coordinates }
    {
        let observer = Observer::new(coordinates);
        let next = date.tomorrow();
        let second = next.tomorrow();
        let third = second.tomorrow();
        let day = date_julian_day(date);
        let next_day = julian_day_after(date, next, day);
        let second_day = julian_day_after(next, second, next_day);
        let third_day = julian_day_after(second, third, second_day);
        let mean = MeanElements::new(day);
        let mean_next = MeanElements::new(next_day);
        let mean_second = MeanElements::new(second_day);
        let before = place(date.yesterday());
        let at_date = mean.place();
        let at_next = mean_next.place();
        let at_second = mean_second.place();
        let at_third = Equatorial::new(third_day);
        let before_next = place_before_tomorrow(date, at_date);
        let before_second = place_before_tomorrow(next, at_next);
        let sidereal = mean.sidereal_time();
        let sidereal_next = mean_next.sidereal_time();
        let sidereal_second = mean_second.sidereal_time();
        Courses {
            today: Course::new(observer, sidereal, before, at_date, at_next),
            tomorrow: Course::new(observer, sidereal_next, before_next, at_next, at_second),
            after: Course::new(
                observer,
                sidereal_second,
                before_second,
                at_second,
                at_third,
            ),
            third: third_day,
            at_second,
            at_third,
        }
    }
}

impl DaySun {
    #[tactic(auto, unfolding(crate::specs::RowSuns::day_sun_of))]
    pub fn new(rules: Rules, course: Course) -> DaySun
        ensures { result ≡ day_sun_of rules.midnight course }
    {
        DaySun {
            course,
            times: numbered(SolarTime::new(rules.midnight, hour_numbers(course))),
        }
    }
}

impl RowSuns {
    // The first row's.
    #[tactic(auto, unfolding(crate::specs::RowSuns::row_suns_of))]
    pub fn new(date: Date, setting: Setting) -> RowSuns
        ensures { result ≡ row_suns_of date setting }
    {
        let sines = TwilightSines::new(setting.parameters);
        let courses = Courses::new(date, setting.coordinates);
        RowSuns {
            date,
            third: courses.third,
            sines,
            at_second: courses.at_second,
            at_third: courses.at_third,
            today: DaySun::new(setting.rules, courses.today),
            tomorrow: DaySun::new(setting.rules, courses.tomorrow),
            after: DaySun::new(setting.rules, courses.after),
            fajr: sines.fajr_hour(setting, courses.today),
            fajr_tomorrow: sines.fajr_hour(setting, courses.tomorrow),
        }
    }

    // The next row's, in the same setting, for the years of an order: there each Julian Day is one more.
    #[tactic(auto, unfolding(crate::specs::RowSuns::next_row_suns_of, float64::proofs::Floats::dec, float64::proofs::Floats::round, float64::proofs::Floats::of_bits))]
    pub fn next(self, setting: Setting) -> RowSuns
        ensures { result ≡ next_row_suns_of setting self }
    {
        let course = self.after.course;
        let fourth = self.third + 1.0;
        let at_fourth = Equatorial::new(fourth);
        let sidereal = sidereal_time(self.third);
        let after = Course::new(
            course.observer,
            sidereal,
            self.at_second,
            self.at_third,
            at_fourth,
        );
        RowSuns {
            date: self.date.tomorrow(),
            third: fourth,
            sines: self.sines,
            at_second: self.at_third,
            at_third: at_fourth,
            today: self.tomorrow,
            tomorrow: self.after,
            after: DaySun::new(setting.rules, after),
            fajr: self.fajr_tomorrow,
            fajr_tomorrow: self.sines.fajr_hour(setting, course),
        }
    }

    fn suns(self) -> Result<ThreeSuns, Refusal>
        ensures { result ≡ three_suns_of self }
    {
        ThreeSuns::new(self.today.times, self.tomorrow.times, self.after.times)
    }

    // The row's Fajr by itself: of the row's own hours neither Asr's nor Isha's is worked.
    #[tactic(auto, unfolding(crate::specs::RowSuns::row_suns_fajr_of))]
    pub fn fajr(self, setting: Setting) -> Option<i64>
        ensures { result ≡ row_suns_fajr_of setting self }
    {
        fajr_alone(
            self.suns(),
            self.date,
            setting.season(),
            setting.parameters,
            self.fajr,
        )
    }

    // What the row's times are worked from.
    #[tactic(auto, unfolding(crate::specs::RowSuns::row_suns_hours_of))]
    fn hours(self, setting: Setting) -> RowHours
        ensures { result ≡ row_suns_hours_of setting self }
    {
        RowHours {
            suns: self.suns(),
            fajr: self.fajr,
            asr: asr_hour(setting, self.today.course),
            isha: self.sines.isha_hour(setting, self.today.course),
            fajr_tomorrow: self.fajr_tomorrow,
        }
    }

    // The row's times in seconds from 0h of its date, or its refusal.
    pub fn since_midnight(self, setting: Setting) -> Result<PrayerTimes, Refusal>
        ensures { (result ≡ row_suns_since_of setting self) × NearIn result }
    {
        self.hours(setting)
            .since_midnight(self.date, setting.season(), setting.parameters)
    }

    // The row's times, or its refusal.
    pub fn work(self, setting: Setting) -> Result<PrayerTimes, Refusal>
        ensures { result ≡ row_suns_worked_of setting self }
    {
        self.hours(setting)
            .work(self.date, setting.season(), setting.parameters)
    }
}
