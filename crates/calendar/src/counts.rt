// Days and years counted from 0000-01-01, for every year that a u32 holds and the one after.
ghost use Rattle.std.specs.Prelude.{◌≡◌, ◌≤◌, ◌<◌};
ghost use Rattle.calendar.specs.Counted.{since_first_of};
ghost use Rattle.calendar.specs.Days.{days_before_year_of, year_of};

// The day numbers of 0000-01-01 and of the last date of the year 4294967295.
const FIRST: i64 = -719528;

const LAST: i64 = 1568703873081;

// The days from 0000-01-01 to `day`. A day outside FIRST to LAST counts as the nearer of the two.
#[tactic(auto, unfolding(crate::specs::Counted::since_first_of))]
pub fn since_first(day: i64) -> u64
    ensures { result ≡ since_first_of day }
{
    (day.clamp(FIRST, LAST) - FIRST) as u64
}

// The days before the year's January 1st.
#[tactic(auto, unfolding(crate::specs::Days::days_before_year_of))]
pub fn days_before_year(year: u64) -> u64
    requires { year ≤ 4294967296 }
    ensures { result ≡ days_before_year_of year }
{
    365 * year + (year + 3) / 4 - (year + 99) / 100 + (year + 399) / 400
}

// The year of the day n. 400 years have 146097 days: the quotient is the year or the one after it.
pub fn year_of(n: u64) -> u64
    requires { n < 1568704592610 }
    ensures { result ≡ year_of n }
{
    let guess = (n + 1) * 400 / 146097;
    if days_before_year(guess) <= n {
        guess
    } else {
        guess - 1
    }
}
