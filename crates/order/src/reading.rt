// Reading an order. The checks, in this order: the form of its fields, missing tags, coordinates in both forms, ranges, the first day of a
// Ramadan sheet.
ghost use Rattle.std.specs.Prelude.{◌≡◌};
ghost use Rattle.refusals.specs.Refusals.{unless_refused};
ghost use Rattle.fields.specs.Values.{given_by};
ghost use Rattle.order.specs.Reading.{is_given_of, missing_of, both_forms_of, out_of_range_of, order_of, wrong_start_of, first_of, checks_of};
ghost use Rattle.order.specs.Reading.{reading_of, town_in};

use super::given::{
    clock_in, coordinate_in, date_in, parameters_in, ramadan_in, rows_in, rules_in,
};
use super::ranges::in_range;
use calendar::dates::Date;
use fields::one_pass::fields_of;
use fields::tags;
use fields::tags::LAST_TAG;
use fields::values::{Given, Part, bytes};
use hijri::ramadan::{Ramadan, is_ramadan_start};
use models::setting::Setting;
use refusals::{BOTH_FORMS, NOT_FIRST_OF_RAMADAN, OUT_OF_RANGE, Refusal, TAG_MISSING};
use unit::Coordinates;

// The most rows that an order has.
pub const MOST_ROWS: u32 = 400;

// The most rows that an order may give in one byte.
pub const MOST_IN_BYTE: u32 = 250;

// The tags that an order may not lack.
const REQUIRED: [u32; 6] = [
    tags::TOWN,
    tags::DATE,
    tags::ROWS,
    tags::LATITUDE,
    tags::LONGITUDE,
    tags::METHOD,
];

// What an order asks for: a timetable of `rows` rows from a date on, for a place. The town is a part of the order's own bytes.
#[derive(Clone, Copy)]
pub struct Order {
    pub town: Part,
    pub date: Date,
    pub rows: u32,
    pub setting: Setting,
    // Minutes from UTC to the clock that the cells show.
    pub clock: i32,
    pub ramadan: Ramadan,
}

// Either form keeps a coordinate from being missing.
fn is_given(given: Given, tag: u32) -> bool
    ensures { result ≡ is_given_of (given_by given.entry).has tag }
{
    match tag {
        tags::LATITUDE => given.has(tags::LATITUDE) | given.has(map_form::LATITUDE),
        tags::LONGITUDE => given.has(tags::LONGITUDE) | given.has(map_form::LONGITUDE),
        _ => given.has(tag),
    }
}

// Refuses the lowest required tag that is missing.
fn missing(given: Given) -> Result<(), Refusal>
    ensures { result ≡ unless_refused (missing_of (given_by given.entry).has) tt }
{
    for tag in REQUIRED {
        if !is_given(given, tag) {
            return Err(Refusal::new(TAG_MISSING, tag));
        }
    }
    Ok(())
}

// Refuses the first coordinate that is given in both forms, whatever their values are.
fn both_forms(given: Given) -> Result<(), Refusal>
    ensures { result ≡ unless_refused (both_forms_of (given_by given.entry).has) tt }
{
    if given.has(tags::LATITUDE) & given.has(map_form::LATITUDE) {
        return Err(Refusal::new(BOTH_FORMS, map_form::LATITUDE));
    }
    if given.has(tags::LONGITUDE) & given.has(map_form::LONGITUDE) {
        return Err(Refusal::new(BOTH_FORMS, map_form::LONGITUDE));
    }
    Ok(())
}

// Refuses the lowest tag whose value is out of range.
fn out_of_range(given: Given) -> Result<(), Refusal>
    ensures { result ≡ unless_refused (out_of_range_of (given_by given.entry)) tt }
{
    let date = date_in(given.value(tags::DATE));
    let ramadan = given.has(tags::RAMADAN);
    for tag in 1..=LAST_TAG {
        if !in_range(given, tag, date, ramadan) {
            return Err(Refusal::new(OUT_OF_RANGE, tag));
        }
    }
    Ok(())
}

fn record_in(given: Given) -> Order
    ensures { result ≡ order_of (given_by given.entry) }
{
    Order {
        town: given.part(tags::TOWN),
        date: date_in(given.value(tags::DATE)),
        rows: rows_in(given.value(tags::ROWS)),
        setting: Setting {
            coordinates: Coordinates::new(
                coordinate_in(given, tags::LATITUDE, map_form::LATITUDE),
                coordinate_in(given, tags::LONGITUDE, map_form::LONGITUDE),
            ),
            parameters: parameters_in(given),
            rules: rules_in(given),
        },
        clock: clock_in(given),
        ramadan: ramadan_in(given),
    }
}

// Refuses a Ramadan sheet that does not begin on the 1st of Ramadan, moved by its shift. The place is the tag of the date.
fn wrong_start(ramadan: Ramadan, date: Date) -> Result<(), Refusal>
    ensures { result ≡ unless_refused (wrong_start_of ramadan date) tt }
{
    if ramadan.set && !is_ramadan_start(date.day_number(), ramadan.shift) {
        return Err(Refusal::new(NOT_FIRST_OF_RAMADAN, tags::DATE));
    }
    Ok(())
}

// Reads fields whose form is right. Both readers use it after they have collected them.
#[tactic(auto, unfolding(crate::specs::Reading::first_of, refusals::specs::Refusals::unless_refused))]
pub(crate) fn answer(given: Given) -> Result<Order, Refusal>
    ensures { result ≡ first_of (checks_of (given_by given.entry)) (order_of (given_by given.entry)) }
{
    missing(given)?;
    both_forms(given)?;
    out_of_range(given)?;
    let record = record_in(given);
    wrong_start(record.ramadan, record.date)?;
    Ok(record)
}

#[tactic(auto, unfolding(crate::specs::Reading::reading_of, fields::specs::Values::checked_of, crate::specs::Reading::first_of, refusals::specs::Refusals::unless_refused))]
pub fn read(order: &[u8]) -> Result<Order, Refusal>
    ensures { result ≡ reading_of order.now }
{
    let fields = fields_of(order)?;
    answer(Given {
        order,
        fields: &fields,
    })
}

// The town's name, as that part of the order itself; an empty part if the order is refused.
pub fn town(order: &[u8], reading: Result<Order, Refusal>) -> &[u8]
    ensures { result.now ≡ town_in order.now reading }
{
    match reading {
        Ok(record) => bytes(order, record.town),
        Err(_) => &order[0..0],
    }
}
