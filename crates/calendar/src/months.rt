// Months: their days, the days before them, and the month of a day of the year.
ghost use Rattle.std.specs.Prelude.{◌≡◌, ◌≤◌, ◌<◌};
ghost use Rattle.calendar.specs.Gregorian.{length_of};
ghost use Rattle.calendar.specs.Days.{days_before_of, month_of};

// "The days before each month, for common and leap years" (document 01). Ordinals, the next date and the previous date use these rows.
const COMMON: [u32; 12] = [0, 31, 59, 90, 120, 151, 181, 212, 243, 273, 304, 334];

const LEAP: [u32; 12] = [0, 31, 60, 91, 121, 152, 182, 213, 244, 274, 305, 335];

// 0 for a month that is not from 1 to 12. Both rows are read before the choice: that takes fewer instructions than choosing a row first.
#[tactic(auto, unfolding(crate::specs::Days::days_before_of))]
pub fn days_before(leap: bool, month: u32) -> u32
    ensures { result ≡ days_before_of leap month }
{
    if !(1..=12).contains(&month) {
        return 0;
    }
    let i = (month - 1) as usize;
    let (common, leap_year) = (COMMON[i], LEAP[i]);
    if leap { leap_year } else { common }
}

// The difference of two neighbours in the row; 0 for a month that is not from 1 to 12.
#[tactic(auto, using(
// December is the last month.
crate::proofs::MonthTables::before_next, crate::proofs::MonthTables::length_past, crate::proofs::MonthTables::length_december))]
pub fn month_days(leap: bool, month: u32) -> u32
    ensures { result ≡ length_of leap month }
{
    match month {
        0..=11 => days_before(leap, month + 1) - days_before(leap, month),
        12 => 31,
        _ => 0,
    }
}

// If each month had 32 days, the month would be `guess`. It is that one or the next, and the row decides.
pub fn month_of(leap: bool, ordinal: u32) -> u32
    requires { (0 < ordinal) × (ordinal ≤ 366) }
    ensures { result ≡ month_of leap ordinal }
{
    let guess = ordinal / 32 + 1;
    if guess < 12 && days_before(leap, guess + 1) < ordinal {
        guess + 1
    } else {
        guess
    }
}
