// ops.rs: the season, by which the MoonsightingCommittee method bounds Fajr and Isha.
#![tactic(auto, using(crate::proofs::Between::le_is), unfolding(
// A literal of the code is the decimal of the formula.
float64::proofs::Floats::dec, float64::proofs::Floats::round, float64::proofs::Floats::of_bits,
// Days.
crate::specs::Season::southern_offset_of, crate::specs::Season::days_by_rule, crate::specs::Season::southern_count_of,
// Days as the source counts them.
crate::specs::Season::days_since_solstice_of,
// Minutes by latitude.
crate::specs::Season::evening_values_of, crate::specs::Season::more_minutes, crate::specs::Season::fewer_minutes,
// Minutes by day.
crate::specs::Season::twilight_adjustment_values_of, crate::specs::Season::twilight_adjustments_of,
// Whole seconds.
crate::specs::Season::morning_seconds_of, crate::specs::Season::evening_seconds_of,))]

ghost use Rattle.std.specs.Prelude.{◌≡◌};
ghost use Rattle.float64.specs.Ranges.{inside_of};
ghost use Rattle.ops.specs.Season.{southern_offset_of, days_since_solstice_of, southern_count_of, season_days_of, source_season};
ghost use Rattle.ops.specs.Season.{evening_values_of, twilight_adjustment_values_of, interpolate_linearly_of, twilight_adjustments_of};
ghost use Rattle.ops.specs.Season.{season_minutes_of, morning_seconds_of, evening_seconds_of, season_adjusted_morning_twilight_of};
ghost use Rattle.ops.specs.Season.{season_adjusted_evening_twilight_of};

use calendar::years::{days_in_year, is_leap_year};
use float64::casts::to_i64;
use float64::sizes::abs;
use float64::whole::round;
use models::rounding::Rounding;
use models::rules::{Season, Southern};
use models::shafaq::Shafaq;
use whole_minutes::times::{plus, rounded_minute};

// The source's own: `twilight_adjustment_values_of` speaks of it.
#[derive(Clone, Copy)]
pub enum AdjustmentDaytime {
    Morning,
    Evening,
}

// Observed minutes at four points of the year.
#[derive(Clone, Copy)]
pub struct TwilightAdjustmentValues {
    pub a: f64,
    pub b: f64,
    pub c: f64,
    pub d: f64,
}

// The day of the June solstice.
fn southern_offset(year: u32) -> u32
    ensures { result ≡ southern_offset_of year }
{
    if is_leap_year(year) { 173 } else { 172 }
}

// Days since the solstice of winter. South of the equator the source's u32 wraps and comes back, and the count is not reduced.
pub fn days_since_solstice(day_of_year: u32, year: u32, latitude: f64) -> u32
    ensures { result ≡ days_since_solstice_of day_of_year year latitude }
{
    let days_in_year = days_in_year(year);
    if latitude >= 0.0 {
        let lapsed_days = day_of_year.wrapping_add(10);
        if lapsed_days >= days_in_year {
            lapsed_days - days_in_year
        } else {
            lapsed_days
        }
    } else {
        let lapsed_days = day_of_year.wrapping_sub(southern_offset(year));
        lapsed_days.wrapping_add(days_in_year)
    }
}

// Days since the solstice of winter in the south, where the count starts again at 0 (added).
fn southern_count(day_of_year: u32, year: u32) -> u32
    ensures { result ≡ southern_count_of day_of_year year }
{
    let solstice = southern_offset(year);
    let days = days_in_year(year);
    if solstice <= day_of_year {
        day_of_year - solstice
    } else {
        day_of_year + days - solstice
    }
}

// By the rule that is chosen for the south. No other place asks for the rule.
pub fn season_days(season: Season, day_of_year: u32, year: u32) -> u32
    ensures { result ≡ season_days_of season day_of_year year }
{
    let by_source = days_since_solstice(day_of_year, year, season.latitude);
    match season.southern {
        Southern::Unreduced => by_source,
        Southern::StartsAgain => {
            if season.latitude >= 0.0 {
                by_source
            } else {
                southern_count(day_of_year, year)
            }
        }
    }
}

// Minutes at the equator, and more or fewer of them for each 55 degrees of latitude.
fn evening_values(latitude: f64, shafaq: Shafaq) -> TwilightAdjustmentValues
    ensures { result ≡ evening_values_of latitude shafaq }
{
    let x = abs(latitude);
    match shafaq {
        Shafaq::General => TwilightAdjustmentValues {
            a: 75.0 + ((25.60 / 55.0) * x),
            b: 75.0 + ((2.050 / 55.0) * x),
            c: 75.0 - ((9.210 / 55.0) * x),
            d: 75.0 + ((6.140 / 55.0) * x),
        },
        Shafaq::Ahmer => TwilightAdjustmentValues {
            a: 62.0 + ((17.40 / 55.0) * x),
            b: 62.0 - ((7.160 / 55.0) * x),
            c: 62.0 + ((5.120 / 55.0) * x),
            d: 62.0 + ((19.44 / 55.0) * x),
        },
        Shafaq::Abyad => TwilightAdjustmentValues {
            a: 75.0 + ((25.60 / 55.0) * x),
            b: 75.0 + ((7.160 / 55.0) * x),
            c: 75.0 + ((36.84 / 55.0) * x),
            d: 75.0 + ((81.84 / 55.0) * x),
        },
    }
}

fn twilight_adjustment_values(
    daytime: AdjustmentDaytime,
    latitude: f64,
    shafaq: Shafaq,
) -> TwilightAdjustmentValues
    ensures { result ≡ twilight_adjustment_values_of daytime latitude shafaq }
{
    match daytime {
        AdjustmentDaytime::Morning => {
            let x = abs(latitude);
            TwilightAdjustmentValues {
                a: 75.0 + ((28.65 / 55.0) * x),
                b: 75.0 + ((19.44 / 55.0) * x),
                c: 75.0 + ((32.74 / 55.0) * x),
                d: 75.0 + ((48.10 / 55.0) * x),
            }
        }
        AdjustmentDaytime::Evening => evening_values(latitude, shafaq),
    }
}

// The value after `lapsed` of `days` days, on a straight line from one value to the next.
fn interpolate_linearly(from: f64, to: f64, days: f64, lapsed: f64) -> f64
    ensures { result ≡ interpolate_linearly_of from to days lapsed }
{
    from + (to - from) / days * lapsed
}

// The minutes on a day, by the six parts of the year.
fn twilight_adjustments(values: TwilightAdjustmentValues, dyy: f64) -> f64
    ensures { result ≡ twilight_adjustments_of values dyy }
{
    if (0.0..=90.0).contains(&dyy) {
        interpolate_linearly(values.a, values.b, 91.0, dyy)
    } else if (91.0..=136.0).contains(&dyy) {
        interpolate_linearly(values.b, values.c, 46.0, dyy - 91.0)
    } else if (137.0..=182.0).contains(&dyy) {
        interpolate_linearly(values.c, values.d, 46.0, dyy - 137.0)
    } else if (183.0..=228.0).contains(&dyy) {
        interpolate_linearly(values.d, values.c, 46.0, dyy - 183.0)
    } else if (229.0..=274.0).contains(&dyy) {
        interpolate_linearly(values.c, values.b, 46.0, dyy - 229.0)
    } else {
        interpolate_linearly(values.b, values.a, 91.0, dyy - 275.0)
    }
}

// The minutes on a day of a year.
fn season_minutes(
    daytime: AdjustmentDaytime,
    season: Season,
    day: u32,
    year: u32,
    shafaq: Shafaq,
) -> f64
    ensures { result ≡ season_minutes_of daytime season day year shafaq }
{
    let dyy = season_days(season, day, year) as f64;
    twilight_adjustments(
        twilight_adjustment_values(daytime, season.latitude, shafaq),
        dyy,
    )
}

// Whole seconds from sunrise to the bound of Fajr, which are negative.
pub fn morning_twilight_seconds(season: Season, day: u32, year: u32) -> i64
    ensures { result ≡ morning_seconds_of season day year }
{
    let adjustment = season_minutes(
        AdjustmentDaytime::Morning,
        season,
        day,
        year,
        Shafaq::General,
    );
    to_i64(round(adjustment * -60.0))
}

// Whole seconds from sunset to the bound of Isha.
pub fn evening_twilight_seconds(season: Season, day: u32, year: u32, shafaq: Shafaq) -> i64
    ensures { result ≡ evening_seconds_of season day year shafaq }
{
    let adjustment = season_minutes(AdjustmentDaytime::Evening, season, day, year, shafaq);
    to_i64(round(adjustment * 60.0))
}

// The source's own.
fn source_season(latitude: f64) -> Season
    ensures { result ≡ source_season latitude }
{
    Season {
        latitude,
        southern: Southern::Unreduced,
    }
}

pub fn season_adjusted_morning_twilight(latitude: f64, day: u32, year: u32, sunrise: i64) -> i64
    ensures { result ≡ season_adjusted_morning_twilight_of latitude day year sunrise }
{
    plus(
        sunrise,
        morning_twilight_seconds(source_season(latitude), day, year),
    )
}

// Rounded to the nearest minute.
pub fn season_adjusted_evening_twilight(
    latitude: f64,
    day: u32,
    year: u32,
    sunset: i64,
    shafaq: Shafaq,
) -> i64
    ensures { result ≡ season_adjusted_evening_twilight_of latitude day year sunset shafaq }
{
    let adjusted = plus(
        sunset,
        evening_twilight_seconds(source_season(latitude), day, year, shafaq),
    );
    rounded_minute(adjusted, Rounding::Nearest)
}
