// The times of the angles of Fajr, Asr and Isha, from a day's course.
ghost use Rattle.std.specs.Prelude.{◌≡◌};
ghost use Rattle.schedule.specs.Asked.{twilight_sines_of, fajr_hour_of, asr_hour_of, isha_hour_of};

use super::twilight::by_seventh;
use fdlibm_trig::s_sin::sin;
use models::parameters::Parameters;
use models::setting::Setting;
use ops::transit::Course;
use solar::hours::{afternoon_number, sine_number};
use solar::times::solar_hour;
use unit::Angle;

// The sines of Fajr's and Isha's angles. They are the same on every day, so they are worked once.
#[derive(Clone, Copy)]
pub struct TwilightSines {
    pub fajr: f64,
    pub isha: f64,
}

impl TwilightSines {
    pub fn new(parameters: Parameters) -> TwilightSines
        ensures { result ≡ twilight_sines_of parameters }
    {
        TwilightSines {
            fajr: sin(Angle::new(-parameters.fajr_angle).radians()),
            isha: sin(Angle::new(-parameters.isha_angle).radians()),
        }
    }

    // None if a seventh of the night takes the angle's place.
    #[tactic(auto, unfolding(crate::specs::Asked::fajr_asked_of))]
    pub fn fajr_hour(self, setting: Setting, course: Course) -> Option<i32>
        ensures { result ≡ fajr_hour_of setting self.fajr course }
    {
        if by_seventh(setting.parameters.method, setting.coordinates.latitude) {
            return None;
        }
        let angle = Angle::new(-setting.parameters.fajr_angle);
        let number = sine_number(course, self.fajr, angle, false);
        solar_hour(setting.rules.midnight, number)
    }

    // None if an interval or a seventh of the night takes the angle's place.
    #[tactic(auto, unfolding(crate::specs::Asked::isha_asked_of))]
    pub fn isha_hour(self, setting: Setting, course: Course) -> Option<i32>
        ensures { result ≡ isha_hour_of setting self.isha course }
    {
        if setting.parameters.isha_interval > 0 {
            return None;
        }
        if by_seventh(setting.parameters.method, setting.coordinates.latitude) {
            return None;
        }
        let angle = Angle::new(-setting.parameters.isha_angle);
        let number = sine_number(course, self.isha, angle, true);
        solar_hour(setting.rules.midnight, number)
    }
}

pub fn asr_hour(setting: Setting, course: Course) -> Option<i32>
    ensures { result ≡ asr_hour_of setting course }
{
    let shadow_length = setting.parameters.madhab.shadow() as f64;
    let number = afternoon_number(course, setting.coordinates.latitude, shadow_length);
    solar_hour(setting.rules.midnight, number)
}
