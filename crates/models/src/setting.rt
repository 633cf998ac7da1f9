// What every day of an order shares (added): its place, its parameters and its rules. They are passed together from the order's record to
// a date's times.
ghost use Rattle.std.specs.Prelude.{◌≡◌};
ghost use Rattle.models.specs.Chosen.{season_of};

use super::parameters::Parameters;
use super::rules::{Rules, Season};
use unit::Coordinates;

#[derive(Clone, Copy)]
pub struct Setting {
    pub coordinates: Coordinates,
    pub parameters: Parameters,
    pub rules: Rules,
}

impl Setting {
    pub fn season(self) -> Season
        ensures { result ≡ season_of self }
    {
        Season {
            latitude: self.coordinates.latitude,
            southern: self.rules.southern,
        }
    }
}
