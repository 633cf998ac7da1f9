// What an order asks for, in numbers.
ghost use Rattle.std.specs.Prelude.{◌≡◌};
ghost use Rattle.integers.specs.Parts.{P};
ghost use Rattle.order_numbers.specs.Numbers.{choices_numbers_of, no_choices_numbers, order_read, order_refused};
ghost use Rattle.order_numbers.specs.Numbers.{order_numbers_in, order_numbers_of};

use calendar::dates::Date;
use fields::values::Part;
use integers::parts::above;
use models::adjustments::TimeAdjustment;
use models::numbered::Numbered;
use order::reading::{Order, read};
use refusals::Refusal;
use unit::Coordinates;

// What tags 15 to 17 and 20 choose. In C these are six fields of the order.
#[repr(C)]
#[derive(Clone, Copy)]
pub struct Choices {
    pub carry: u32,
    pub clock: i32,
    pub southern: u32,
    pub ramadan: u32,
    pub imsak: u32,
    pub shift: i32,
}

#[repr(C)]
#[derive(Clone, Copy)]
pub struct OrderNumbers {
    pub refusal: Refusal,
    pub town: Part,
    pub date: Date,
    pub rows: u32,
    pub coordinates: Coordinates,
    pub fajr_angle: f64,
    pub isha_angle: f64,
    pub method: u32,
    pub madhab: u32,
    pub high_latitude_rule: u32,
    pub rounding: u32,
    pub shafaq: u32,
    pub isha_interval: u32,
    // In C an array of six.
    pub minutes: TimeAdjustment,
    pub choices: Choices,
}

// An interval that is read is never below 0 (the law `interval` of proofs/NumbersLaws.antt).
fn interval(minutes: i32) -> u32
    ensures { result ≡ P minutes }
{
    above(minutes as i64) as u32
}

fn choices_read(order: Order) -> Choices
    ensures { result ≡ choices_numbers_of order }
{
    let rules = order.setting.rules;
    let ramadan = order.ramadan;
    Choices {
        carry: rules.midnight.number(),
        clock: order.clock,
        southern: rules.southern.number(),
        ramadan: u32::from(ramadan.set),
        imsak: ramadan.imsak,
        shift: ramadan.shift,
    }
}

fn no_choices() -> Choices
    ensures { result ≡ no_choices_numbers }
{
    Choices {
        carry: 0,
        clock: 0,
        southern: 0,
        ramadan: 0,
        imsak: 0,
        shift: 0,
    }
}

fn order_read(order: Order) -> OrderNumbers
    ensures { result ≡ order_read order }
{
    let parameters = order.setting.parameters;
    OrderNumbers {
        refusal: Refusal::none(),
        town: order.town,
        date: order.date,
        rows: order.rows,
        coordinates: order.setting.coordinates,
        fajr_angle: parameters.fajr_angle,
        isha_angle: parameters.isha_angle,
        method: parameters.method.number(),
        madhab: parameters.madhab.number(),
        high_latitude_rule: parameters.high_latitude_rule.number(),
        rounding: parameters.rounding.number(),
        shafaq: parameters.shafaq.number(),
        isha_interval: interval(parameters.isha_interval),
        minutes: parameters.adjustments,
        choices: choices_read(order),
    }
}

fn order_refused(refusal: Refusal) -> OrderNumbers
    ensures { result ≡ order_refused refusal }
{
    OrderNumbers {
        refusal,
        town: Part { at: 0, length: 0 },
        date: Date::new(0, 0, 0),
        rows: 0,
        coordinates: Coordinates::new(0.0, 0.0),
        fajr_angle: 0.0,
        isha_angle: 0.0,
        method: 0,
        madhab: 0,
        high_latitude_rule: 0,
        rounding: 0,
        shafaq: 0,
        isha_interval: 0,
        minutes: TimeAdjustment::NONE,
        choices: no_choices(),
    }
}

// What a reading gives: the record in numbers, or its refusal.
pub fn numbers_of(reading: Result<Order, Refusal>) -> OrderNumbers
    ensures { result ≡ order_numbers_in reading }
{
    match reading {
        Ok(order) => order_read(order),
        Err(refusal) => order_refused(refusal),
    }
}

// What the bytes of an order ask for, or their refusal.
pub fn read_numbers(order: &[u8]) -> OrderNumbers
    ensures { result ≡ order_numbers_of order.now }
{
    numbers_of(read(order))
}
