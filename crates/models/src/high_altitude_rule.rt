// high_altitude_rule.rs: how Fajr and Isha are bounded when the night is short.
ghost use Rattle.std.specs.Prelude.{◌≡◌};
ghost use Rattle.models.specs.Numbers.{rule_number_of, rule_of};
ghost use Rattle.models.specs.NumbersLaws.{rule_back};
ghost use Rattle.models.specs.Recommended.{recommended_of};

use super::numbered::Numbered;
use unit::Coordinates;

#[derive(Clone, Copy)]
pub enum HighLatitudeRule {
    // Fajr is never before the middle of the night, and Isha never after it.
    MiddleOfTheNight,
    // Fajr is never before the last seventh of the night, and Isha never after the first.
    SeventhOfTheNight,
    // The portions are the Fajr and Isha angles, divided by 60.
    TwilightAngle,
}

impl HighLatitudeRule {
    pub fn recommended(coordinates: Coordinates) -> HighLatitudeRule
        ensures { result ≡ recommended_of coordinates }
    {
        if coordinates.latitude > 48.0 {
            HighLatitudeRule::SeventhOfTheNight
        } else {
            HighLatitudeRule::MiddleOfTheNight
        }
    }
}

impl Numbered for HighLatitudeRule {
    ghost number_of = { rule_number_of };

    ghost case_of = { rule_of };

    ghost back = { rule_back };

    fn number(self) -> u32 {
        self as u32
    }

    #[tactic(auto, unfolding(crate::specs::Numbers::rule_of))]
    fn of_number(n: u32) -> HighLatitudeRule {
        match n {
            0 => HighLatitudeRule::MiddleOfTheNight,
            1 => HighLatitudeRule::SeventhOfTheNight,
            _ => HighLatitudeRule::TwilightAngle,
        }
    }
}
