// method.rs: the presets of the authorities.
ghost use Rattle.std.specs.Prelude.{◌≡◌, get_or};
ghost use Rattle.std.specs.Float.Ieee.{nan};
ghost use Rattle.models.specs.Numbers.{method_number_of, method_of};
ghost use Rattle.models.specs.NumbersLaws.{method_back};
ghost use Rattle.models.specs.Builder.{configuration_of, set_method, set_method_adjustments};
ghost use Rattle.models.specs.Settings.{parameters_new_of};
ghost use Rattle.models.specs.Presets.{preset_of};

use super::adjustments::TimeAdjustment;
use super::numbered::Numbered;
use super::parameters::{Configuration, Parameters};
use super::rounding::Rounding;

#[derive(Clone, Copy)]
pub enum Method {
    // Muslim World League.
    MuslimWorldLeague,
    // Egyptian General Authority of Survey.
    Egyptian,
    // University of Islamic Sciences, Karachi.
    Karachi,
    // Umm al-Qura University, Makkah: Isha 90 minutes after Maghrib.
    UmmAlQura,
    // Used in the UAE.
    Dubai,
    // Moonsighting Committee Worldwide: bounds by season, and a seventh of the night from latitude 55 on.
    MoonsightingCommittee,
    // Also known as ISNA.
    NorthAmerica,
    Kuwait,
    // As Umm al-Qura, with the standard Fajr angle.
    Qatar,
    // Used in Singapore, Malaysia and Indonesia.
    Singapore,
    // Institute of Geophysics, University of Tehran.
    Tehran,
    // An approximation of the Diyanet's.
    Turkey,
    // Angles of 0, for a caller that sets its own values.
    Other,
}

impl Method {
    // How many degrees the sun is below the horizon at Fajr and at Isha.
    pub const MUSLIM_WORLD_LEAGUE_ANGLES: [f64; 2] = [18.0, 17.0];

    pub const EGYPTIAN_ANGLES: [f64; 2] = [19.5, 17.5];

    pub const KARACHI_ANGLES: [f64; 2] = [18.0, 18.0];

    pub const UMM_AL_QURA_ANGLES: [f64; 2] = [18.5, 0.0];

    pub const DUBAI_ANGLES: [f64; 2] = [18.2, 18.2];

    pub const MOONSIGHTING_ANGLES: [f64; 2] = [18.0, 18.0];

    pub const NORTH_AMERICA_ANGLES: [f64; 2] = [15.0, 15.0];

    pub const KUWAIT_ANGLES: [f64; 2] = [18.0, 17.5];

    pub const QATAR_ANGLES: [f64; 2] = [18.0, 0.0];

    pub const SINGAPORE_ANGLES: [f64; 2] = [20.0, 18.0];

    pub const TEHRAN_ANGLES: [f64; 2] = [17.7, 14.0];

    pub const TURKEY_ANGLES: [f64; 2] = [18.0, 17.0];

    pub const OTHER_ANGLES: [f64; 2] = [0.0, 0.0];

    // The same at Maghrib.
    pub const TEHRAN_MAGHRIB: f64 = 4.5;

    // Minutes from Maghrib to Isha, in place of Isha's angle.
    pub const UMM_AL_QURA_INTERVAL: i32 = 90;

    pub const QATAR_INTERVAL: i32 = 90;

    pub const SINGAPORE_ROUNDING: Rounding = Rounding::Up;

    // Five methods move only Dhuhr, by a minute.
    pub const DHUHR_MINUTES: TimeAdjustment = TimeAdjustment {
        fajr: 0,
        sunrise: 0,
        dhuhr: 1,
        asr: 0,
        maghrib: 0,
        isha: 0,
    };

    pub const DUBAI_MINUTES: TimeAdjustment = TimeAdjustment {
        fajr: 0,
        sunrise: -3,
        dhuhr: 3,
        asr: 3,
        maghrib: 3,
        isha: 0,
    };

    pub const MOONSIGHTING_MINUTES: TimeAdjustment = TimeAdjustment {
        fajr: 0,
        sunrise: 0,
        dhuhr: 5,
        asr: 0,
        maghrib: 3,
        isha: 0,
    };

    pub const TURKEY_MINUTES: TimeAdjustment = TimeAdjustment {
        fajr: 0,
        sunrise: -7,
        dhuhr: 5,
        asr: 4,
        maghrib: 7,
        isha: 0,
    };

    fn preset(self, angles: [f64; 2], minutes: TimeAdjustment) -> Configuration
        ensures { result
            ≡ set_method_adjustments (set_method (configuration_of (parameters_new_of (get_or angles 0 nan) (get_or angles 1 nan))) self) minutes }
    {
        Configuration::new(angles[0], angles[1])
            .method(self)
            .method_adjustments(minutes)
    }

    // The method's constants put together. The rest is as in Parameters::new.
    fn configuration(self) -> Configuration
        ensures { result ≡ configuration_of (preset_of self) }
    {
        match self {
            Method::MuslimWorldLeague => self.preset(
                Method::MUSLIM_WORLD_LEAGUE_ANGLES,
                Method::DHUHR_MINUTES,
            ),
            Method::Egyptian => self.preset(Method::EGYPTIAN_ANGLES, Method::DHUHR_MINUTES),
            Method::Karachi => self.preset(Method::KARACHI_ANGLES, Method::DHUHR_MINUTES),
            Method::UmmAlQura => self
                .preset(Method::UMM_AL_QURA_ANGLES, TimeAdjustment::NONE)
                .isha_interval(Method::UMM_AL_QURA_INTERVAL),
            Method::Dubai => self.preset(Method::DUBAI_ANGLES, Method::DUBAI_MINUTES),
            Method::MoonsightingCommittee => self.preset(
                Method::MOONSIGHTING_ANGLES,
                Method::MOONSIGHTING_MINUTES,
            ),
            Method::NorthAmerica => self.preset(
                Method::NORTH_AMERICA_ANGLES,
                Method::DHUHR_MINUTES,
            ),
            Method::Kuwait => self.preset(Method::KUWAIT_ANGLES, TimeAdjustment::NONE),
            Method::Qatar => self
                .preset(Method::QATAR_ANGLES, TimeAdjustment::NONE)
                .isha_interval(Method::QATAR_INTERVAL),
            Method::Singapore => self
                .preset(Method::SINGAPORE_ANGLES, Method::DHUHR_MINUTES)
                .rounding(Method::SINGAPORE_ROUNDING),
            Method::Tehran => self
                .preset(Method::TEHRAN_ANGLES, TimeAdjustment::NONE)
                .maghrib_angle(Method::TEHRAN_MAGHRIB),
            Method::Turkey => self.preset(Method::TURKEY_ANGLES, Method::TURKEY_MINUTES),
            Method::Other => self.preset(Method::OTHER_ANGLES, TimeAdjustment::NONE),
        }
    }

    // The method's preset.
    pub fn parameters(self) -> Parameters
        ensures { result ≡ preset_of self }
    {
        self.configuration().done()
    }
}

impl Numbered for Method {
    ghost number_of = { method_number_of };

    ghost case_of = { method_of };

    ghost back = { method_back };

    fn number(self) -> u32 {
        self as u32
    }

    #[tactic(auto, unfolding(crate::specs::Numbers::method_of))]
    fn of_number(n: u32) -> Method {
        match n {
            0 => Method::MuslimWorldLeague,
            1 => Method::Egyptian,
            2 => Method::Karachi,
            3 => Method::UmmAlQura,
            4 => Method::Dubai,
            5 => Method::MoonsightingCommittee,
            6 => Method::NorthAmerica,
            7 => Method::Kuwait,
            8 => Method::Qatar,
            9 => Method::Singapore,
            10 => Method::Tehran,
            11 => Method::Turkey,
            _ => Method::Other,
        }
    }
}
