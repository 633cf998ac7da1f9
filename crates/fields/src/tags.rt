// The names of the tags, and their table. A new tag needs a new name, a new row and a new last tag. The names of tags 18 and 19 are in
// map_form.
ghost use Rattle.std.specs.Prelude.{◌≡◌};
ghost use Rattle.fields.specs.Tags.{known_tag, length_fits, choice_fits};

pub const TOWN: u32 = 1;

pub const DATE: u32 = 2;

pub const ROWS: u32 = 3;

pub const LATITUDE: u32 = 4;

pub const LONGITUDE: u32 = 5;

pub const METHOD: u32 = 6;

pub const MADHAB: u32 = 7;

pub const HIGH_LATITUDE_RULE: u32 = 8;

pub const ROUNDING: u32 = 9;

pub const SHAFAQ: u32 = 10;

pub const MINUTES: u32 = 11;

pub const FAJR_ANGLE: u32 = 12;

pub const ISHA_ANGLE: u32 = 13;

pub const ISHA_INTERVAL: u32 = 14;

pub const MIDNIGHT: u32 = 15;

pub const CLOCK: u32 = 16;

pub const SOUTHERN: u32 = 17;

pub const RAMADAN: u32 = 20;

pub const LAST_TAG: u32 = 20;

// There is no tag 0, but the table has a row for it.
pub const TAGS: usize = LAST_TAG as usize + 1;

pub const LONGEST_TOWN: u32 = 40;

// By tag: the shortest and the longest value; and the lowest and the highest number if the value is one byte for a choice.
const TABLE: [[u8; 4]; TAGS] = [
    [1, 0, 1, 0],
    // Town, date, rows.
    [1, LONGEST_TOWN as u8, 0, 0],
    [4, 4, 0, 0],
    [1, 2, 0, 0],
    // Latitude, longitude.
    [8, 8, 0, 0],
    [8, 8, 0, 0],
    // Method, madhab, high latitude rule, rounding, shafaq.
    [1, 1, 0, 12],
    [1, 1, 1, 2],
    [1, 1, 0, 2],
    [1, 1, 0, 2],
    [1, 1, 0, 2],
    // Six minutes.
    [12, 12, 0, 0],
    // Fajr angle, Isha angle.
    [8, 8, 0, 0],
    [8, 8, 0, 0],
    // Isha interval.
    [2, 2, 0, 0],
    // At midnight.
    [1, 1, 0, 1],
    // Clock.
    [2, 2, 0, 0],
    // The southern season.
    [1, 1, 0, 1],
    // Latitude and longitude as on the map.
    [5, 5, 0, 0],
    [5, 5, 0, 0],
    // Imsak and shift.
    [2, 2, 0, 0],
];

pub(crate) fn known(tag: u32) -> bool
    ensures { result ≡ known_tag tag }
{
    (1 <= tag) & (tag <= LAST_TAG)
}

pub(crate) fn length_fits(tag: u32, length: u32) -> bool
    ensures { result ≡ length_fits tag length }
{
    if LAST_TAG < tag {
        return false;
    }
    let row = TABLE[tag as usize];
    (row[0] as u32 <= length) & (length <= row[1] as u32)
}

pub fn choice_fits(tag: u32, number: u32) -> bool
    ensures { result ≡ choice_fits tag number }
{
    if LAST_TAG < tag {
        return false;
    }
    let row = TABLE[tag as usize];
    (row[2] as u32 <= number) & (number <= row[3] as u32)
}
