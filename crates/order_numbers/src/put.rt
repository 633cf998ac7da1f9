// The fields of an order, put one behind the other at the front of a line.
ghost use Rattle.std.specs.Prelude.{◌≡◌, [], ◌∷◌, ◌++◌, ◌+◌, ◌≤◌, length};
ghost use Rattle.order_numbers.specs.Bytes.{byte_for, float_bytes, field_bytes, joined};
ghost use Rattle.order_numbers.specs.Values.{town_bytes, date_bytes, rows_bytes, minutes_bytes, ramadan_bytes, unsaid};
ghost use Rattle.order_numbers.specs.Values.{start_fields, setting_fields, time_fields, rule_fields, ramadan_fields, line_length, written, encode};

use super::bytes::{byte_for, float_bytes, shift_byte, signed_bytes, word_bytes};
use super::numbers::{Choices, OrderNumbers};
use calendar::dates::Date;
use fields::tags;
use fields::tags::LONGEST_TOWN;
use models::adjustments::TimeAdjustment;
use order::reading::MOST_IN_BYTE;
use text::put::put;

// The longest order that is written has 157 bytes, and one more if its town is cut.
pub const LINE_LENGTH: usize = 158;

// A longer town is cut to this length, which is one too long: the reader refuses it.
const TOWN_CUT: usize = LONGEST_TOWN as usize + 1;

// A line that fields are put into.
#[derive(Drop)]
pub struct Line {
    pub bytes: [u8; LINE_LENGTH],
    // What is put is before this offset.
    pub end: usize,
}

fn date_bytes(date: Date) -> [u8; 4]
    ensures { result ≡ date_bytes date }
{
    let year = word_bytes(date.year);
    [year[0], year[1], byte_for(date.month), byte_for(date.day)]
}

fn minutes_bytes(m: TimeAdjustment) -> [u8; 12]
    ensures { result ≡ minutes_bytes m }
{
    let fajr = signed_bytes(m.fajr);
    let sunrise = signed_bytes(m.sunrise);
    let dhuhr = signed_bytes(m.dhuhr);
    let asr = signed_bytes(m.asr);
    let maghrib = signed_bytes(m.maghrib);
    let isha = signed_bytes(m.isha);
    [
        fajr[0], fajr[1], sunrise[0], sunrise[1], dhuhr[0], dhuhr[1], asr[0], asr[1], maghrib[0],
        maghrib[1], isha[0], isha[1],
    ]
}

fn ramadan_bytes(c: Choices) -> [u8; 2]
    ensures { result ≡ ramadan_bytes c }
{
    if c.ramadan == 1 {
        return [byte_for(c.imsak), shift_byte(c.shift)];
    }
    [255, 255]
}

fn is_unsaid(c: Choices) -> bool
    ensures { result ≡ unsaid c }
{
    (c.ramadan == 0) & (c.imsak == 0) & (c.shift <= 0) & (0 <= c.shift)
}

impl Line {
    fn empty() -> Line
        ensures end { result.end ≡ 0 }
        ensures line_after { written result ≡ [] }
    {
        Line {
            bytes: [0; LINE_LENGTH],
            end: 0,
        }
    }

    // Puts a field: its header, and its value behind it.
    fn field(&mut self, tag: u32, value: &[u8])
        requires { (self.old.end + 3 + length value.now ≤ line_length) × (tag ≤ 255) }
        ensures end { self.new.end ≡ self.old.end + 3 + length value.now }
        ensures line_after { written self.new ≡ written self.old ++ field_bytes tag value.now }
    {
        let n = value.len();
        let header = [tag as u8, (n / 256) as u8, (n % 256) as u8];
        put(&mut self.bytes[..], self.end, &header);
        put(&mut self.bytes[..], self.end + 3, value);
        self.end = self.end + 3 + n;
    }

    fn byte(&mut self, tag: u32, n: u32)
        requires { (self.old.end + 4 ≤ line_length) × (tag ≤ 255) }
        ensures end { self.new.end ≡ self.old.end + 4 }
        ensures line_after { written self.new ≡ written self.old ++ field_bytes tag (byte_for n ∷ []) }
    {
        self.field(tag, &[byte_for(n)]);
    }

    fn float(&mut self, tag: u32, x: f64)
        requires { (self.old.end + 11 ≤ line_length) × (tag ≤ 255) }
        ensures end { self.new.end ≡ self.old.end + 11 }
        ensures line_after { written self.new ≡ written self.old ++ field_bytes tag (float_bytes x) }
    {
        self.field(tag, &float_bytes(x));
    }

    fn town(&mut self, town: &[u8])
        requires { self.old.end ≡ 0 }
        ensures end { self.new.end ≤ 44 }
        ensures line_after { written self.new ≡ written self.old ++ field_bytes 1 (town_bytes town.now) }
    {
        self.field(tags::TOWN, &town[..town.len().min(TOWN_CUT)]);
    }

    fn rows(&mut self, rows: u32)
        requires { self.old.end + 5 ≤ line_length }
        ensures end { self.new.end ≡ self.old.end + 3 + length (rows_bytes rows) }
        ensures line_after { written self.new ≡ written self.old ++ field_bytes 3 (rows_bytes rows) }
    {
        if rows <= MOST_IN_BYTE {
            self.byte(tags::ROWS, rows);
        } else {
            self.field(tags::ROWS, &word_bytes(rows));
        }
    }

    // Tags 1 to 3.
    fn start(&mut self, date: Date, rows: u32, town: &[u8])
        requires { self.old.end ≡ 0 }
        ensures end { self.new.end ≤ 56 }
        ensures line_after { written self.new ≡ written self.old ++ joined (start_fields date rows town.now) }
    {
        self.town(town);
        self.field(tags::DATE, &date_bytes(date));
        self.rows(rows);
    }

    // Tags 4 to 10.
    fn settings(&mut self, n: OrderNumbers)
        requires { self.old.end ≤ 56 }
        ensures end { self.new.end ≡ self.old.end + 42 }
        ensures line_after { written self.new ≡ written self.old ++ joined (setting_fields n) }
    {
        self.float(tags::LATITUDE, n.coordinates.latitude);
        self.float(tags::LONGITUDE, n.coordinates.longitude);
        self.byte(tags::METHOD, n.method);
        self.byte(tags::MADHAB, n.madhab);
        self.byte(tags::HIGH_LATITUDE_RULE, n.high_latitude_rule);
        self.byte(tags::ROUNDING, n.rounding);
        self.byte(tags::SHAFAQ, n.shafaq);
    }

    // Tags 11 to 14.
    fn times(&mut self, n: OrderNumbers)
        requires { self.old.end ≤ 98 }
        ensures end { self.new.end ≡ self.old.end + 42 }
        ensures line_after { written self.new ≡ written self.old ++ joined (time_fields n) }
    {
        self.field(tags::MINUTES, &minutes_bytes(n.minutes));
        self.float(tags::FAJR_ANGLE, n.fajr_angle);
        self.float(tags::ISHA_ANGLE, n.isha_angle);
        self.field(tags::ISHA_INTERVAL, &word_bytes(n.isha_interval));
    }

    // Tags 15 to 17.
    fn rules(&mut self, c: Choices)
        requires { self.old.end ≤ 140 }
        ensures end { self.new.end ≡ self.old.end + 13 }
        ensures line_after { written self.new ≡ written self.old ++ joined (rule_fields c) }
    {
        self.byte(tags::MIDNIGHT, c.carry);
        self.field(tags::CLOCK, &signed_bytes(c.clock));
        self.byte(tags::SOUTHERN, c.southern);
    }

    // Tag 20, for a Ramadan sheet.
    fn ramadan(&mut self, c: Choices)
        requires { self.old.end ≤ 153 }
        ensures end { self.new.end ≤ line_length }
        ensures line_after { written self.new ≡ written self.old ++ joined (ramadan_fields c) }
    {
        if is_unsaid(c) {
            return;
        }
        self.field(tags::RAMADAN, &ramadan_bytes(c));
    }

    // All fields.
    pub fn of_order(n: OrderNumbers, town: &[u8]) -> Line
        ensures end { result.end ≤ line_length }
        ensures line_after { written result ≡ encode n town.now }
    {
        let mut line = Line::empty();
        line.start(n.date, n.rows, town);
        line.settings(n);
        line.times(n);
        line.rules(n.choices);
        line.ramadan(n.choices);
        line
    }
}
