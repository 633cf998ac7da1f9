// What each tag's value gives if it is in range, and what a missing tag means.
ghost use Rattle.std.specs.Prelude.{◌≡◌};
ghost use Rattle.fields.specs.Values.{given_by};
ghost use Rattle.order.specs.Given.{date_in, rows_in, degrees_in, form_in, coordinate_in, minutes_in, byte_or, degrees_or, rounding_or};
ghost use Rattle.order.specs.Given.{minutes_or, interval_or, parameters_in, rules_in, clock_in, ramadan_in};

use calendar::dates::Date;
use fields::numbers::{byte, float, signed, unsigned};
use fields::tags;
use fields::values::Given;
use hijri::ramadan::Ramadan;
use map_form::MapForm;
use map_form::reading::degrees_of;
use models::adjustments::TimeAdjustment;
use models::high_altitude_rule::HighLatitudeRule;
use models::madhab::Madhab;
use models::method::Method;
use models::numbered::Numbered;
use models::parameters::Parameters;
use models::rounding::Rounding;
use models::rules::{Midnight, Rules, Southern};
use models::shafaq::Shafaq;

pub fn date_in(bytes: &[u8]) -> Date
    ensures { result ≡ date_in bytes.now }
{
    Date::new(unsigned(bytes, 0), byte(bytes, 2), byte(bytes, 3))
}

pub fn rows_in(bytes: &[u8]) -> u32
    ensures { result ≡ rows_in bytes.now }
{
    if bytes.len() == 2 {
        return unsigned(bytes, 0);
    }
    byte(bytes, 0)
}

// -0.0 equals 0.0, so it is read as 0.0. A NaN equals nothing and stays.
pub fn degrees_in(bytes: &[u8]) -> f64
    ensures { result ≡ degrees_in bytes.now }
{
    let x = float(bytes);
    if x == 0.0 { 0.0 } else { x }
}

// Sign, degrees, minutes, seconds and hundredths, as on the map.
pub fn form_in(bytes: &[u8]) -> MapForm
    ensures { result ≡ form_in bytes.now }
{
    MapForm {
        sign: byte(bytes, 0),
        degrees: byte(bytes, 1),
        minutes: byte(bytes, 2),
        seconds: byte(bytes, 3),
        hundredths: byte(bytes, 4),
    }
}

// A coordinate in either form: as on the map if the order has the tag `map`, else the float of the tag `float`.
pub fn coordinate_in(given: Given, float: u32, map: u32) -> f64
    ensures { result ≡ coordinate_in (given_by given.entry) float map }
{
    match given.get(map) {
        Some(bytes) => degrees_of(form_in(bytes)),
        None => degrees_in(given.value(float)),
    }
}

pub fn minutes_in(bytes: &[u8]) -> TimeAdjustment
    ensures { result ≡ minutes_in bytes.now }
{
    TimeAdjustment::new(
        signed(bytes, 0),
        signed(bytes, 2),
        signed(bytes, 4),
        signed(bytes, 6),
        signed(bytes, 8),
        signed(bytes, 10),
    )
}

fn byte_or(given: Given, tag: u32, missing: u32) -> u32
    ensures { result ≡ byte_or (given_by given.entry) tag missing }
{
    given.get(tag).map_or(missing, |bytes| byte(bytes, 0))
}

fn degrees_or(given: Given, tag: u32, missing: f64) -> f64
    ensures { result ≡ degrees_or (given_by given.entry) tag missing }
{
    given.get(tag).map_or(missing, degrees_in)
}

fn rounding_or(given: Given, missing: Rounding) -> Rounding
    ensures { result ≡ rounding_or (given_by given.entry) missing }
{
    given
        .get(tags::ROUNDING)
        .map_or(missing, |bytes| Rounding::of_number(byte(bytes, 0)))
}

fn minutes_or(given: Given, missing: TimeAdjustment) -> TimeAdjustment
    ensures { result ≡ minutes_or (given_by given.entry) missing }
{
    given.get(tags::MINUTES).map_or(missing, minutes_in)
}

fn interval_or(given: Given, missing: i32) -> i32
    ensures { result ≡ interval_or (given_by given.entry) missing }
{
    match given.get(tags::ISHA_INTERVAL) {
        Some(bytes) => unsigned(bytes, 0) as i32,
        None => missing,
    }
}

// The method's parameters. Tags 7 to 14 then set one field each, so the interval does not change the Isha angle.
pub fn parameters_in(given: Given) -> Parameters
    ensures { result ≡ parameters_in (given_by given.entry) }
{
    let preset = Method::of_number(byte(given.value(tags::METHOD), 0)).parameters();
    Parameters {
        fajr_angle: degrees_or(given, tags::FAJR_ANGLE, preset.fajr_angle),
        isha_angle: degrees_or(given, tags::ISHA_ANGLE, preset.isha_angle),
        isha_interval: interval_or(given, preset.isha_interval),
        madhab: Madhab::of_number(byte_or(given, tags::MADHAB, 1)),
        high_latitude_rule: HighLatitudeRule::of_number(byte_or(
            given,
            tags::HIGH_LATITUDE_RULE,
            0,
        )),
        adjustments: minutes_or(given, TimeAdjustment::default()),
        rounding: rounding_or(given, preset.rounding),
        shafaq: Shafaq::of_number(byte_or(given, tags::SHAFAQ, 0)),
        ..preset
    }
}

// Tags 15 and 17. A missing tag is read as 0, the source's rule.
pub fn rules_in(given: Given) -> Rules
    ensures { result ≡ rules_in (given_by given.entry) }
{
    Rules {
        midnight: Midnight::of_number(byte_or(given, tags::MIDNIGHT, 0)),
        southern: Southern::of_number(byte_or(given, tags::SOUTHERN, 0)),
    }
}

// Tag 16: minutes from UTC to the clock that the cells show.
pub fn clock_in(given: Given) -> i32
    ensures { result ≡ clock_in (given_by given.entry) }
{
    given.get(tags::CLOCK).map_or(0, |bytes| signed(bytes, 0))
}

// Tag 20: the minutes from imsak to Fajr, and the shift, which is stored plus 1.
pub fn ramadan_in(given: Given) -> Ramadan
    ensures { result ≡ ramadan_in (given_by given.entry) }
{
    match given.get(tags::RAMADAN) {
        Some(bytes) => Ramadan {
            set: true,
            imsak: byte(bytes, 0),
            shift: byte(bytes, 1) as i32 - 1,
        },
        None => Ramadan {
            set: false,
            imsak: 0,
            shift: 0,
        },
    }
}
