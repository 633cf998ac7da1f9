// A coordinate as on the map (added): a sign, degrees, minutes, seconds and hundredths of a second, to degrees as an f64 and back.
#![tactic(auto)]

ghost use Rattle.std.specs.Prelude.{◌≤◌};

mod hundredths;
pub mod reading;
pub mod writing;

// The tags of the two coordinates in this form, which are also the places of their refusals.
pub const LATITUDE: u32 = 18;

pub const LONGITUDE: u32 = 19;

// Hundredths of a second in a degree.
const IN_DEGREE: u64 = 360000;

// The sign 1 is south or west. Each part may be any number here; `latitude_fits` and `longitude_fits` say which are allowed.
#[repr(C)]
#[derive(Clone, Copy)]
pub struct MapForm {
    pub sign: u32,
    pub degrees: u32,
    pub minutes: u32,
    pub seconds: u32,
    pub hundredths: u32,
}

// A coordinate: its tag, and the most degrees that it may have, north or south, east or west. A degree of more than 180 would need more
// hundredths than the writer counts.
#[derive(Clone, Copy)]
pub(crate) struct Coordinate {
    tag: u32,
    most: u64,
    ghost small: { most ≤ 180 },
}

impl Coordinate {
    const LATITUDE: Coordinate = Coordinate {
        tag: LATITUDE,
        most: 90,
    };

    const LONGITUDE: Coordinate = Coordinate {
        tag: LONGITUDE,
        most: 180,
    };
}
