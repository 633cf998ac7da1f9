// Which years are leap years (ops.rs), and how many days a year has.
ghost use Rattle.std.specs.Prelude.{◌≡◌};
ghost use Rattle.calendar.specs.Gregorian.{leap_of};
ghost use Rattle.calendar.specs.Days.{days_in_year_of};

#[tactic(auto, unfolding(crate::specs::Gregorian::leap_of))]
pub fn is_leap_year(year: u32) -> bool
    ensures { result ≡ leap_of year }
{
    year % 4 == 0 && (year % 100 != 0 || year % 400 == 0)
}

#[tactic(auto, unfolding(crate::specs::Days::days_in_year_of))]
pub fn days_in_year(year: u32) -> u32
    ensures { result ≡ days_in_year_of year }
{
    if is_leap_year(year) { 366 } else { 365 }
}
