// parameters.rs: the parameters of the times, and their builder.
ghost use Rattle.std.specs.Prelude.{◌≡◌, ◌^◌, ◌+ℤ◌};
ghost use Rattle.integers.specs.Parts.{Near};
ghost use Rattle.models.specs.Settings.{parameters_new_of, night_portions_of, minutes_for, time_adjustments_of};
ghost use Rattle.models.specs.Builder.{configuration_of, set_method, set_method_adjustments, set_high_latitude_rule, set_madhab};
ghost use Rattle.models.specs.Builder.{set_isha_interval, set_maghrib_angle, set_rounding, set_shafaq};
ghost use Rattle.models.specs.Presets.{with_of};

use super::adjustments::TimeAdjustment;
use super::high_altitude_rule::HighLatitudeRule;
use super::madhab::Madhab;
use super::method::Method;
use super::prayer::Prayer;
use super::rounding::Rounding;
use super::shafaq::Shafaq;

#[derive(Clone, Copy)]
pub struct Parameters {
    pub method: Method,
    pub fajr_angle: f64,
    pub maghrib_angle: f64,
    pub isha_angle: f64,
    pub isha_interval: i32,
    pub madhab: Madhab,
    pub high_latitude_rule: HighLatitudeRule,
    pub adjustments: TimeAdjustment,
    pub method_adjustments: TimeAdjustment,
    pub rounding: Rounding,
    pub shafaq: Shafaq,
}

// The sum of two numbers of minutes, which can't overflow.
fn sum(a: i32, b: i32) -> i64
    ensures { result ≡ a +ℤ b }
{
    i64::from(a) + i64::from(b)
}

// A prayer's minutes of one kind, its own or the method's. Qiyam and tomorrow's Fajr have none.
#[tactic(auto, unfolding(crate::specs::Settings::minutes_for))]
fn minutes_for(prayer: Prayer, minutes: TimeAdjustment) -> i32
    ensures { result ≡ minutes_for prayer minutes }
{
    match prayer {
        Prayer::Fajr => minutes.fajr,
        Prayer::Sunrise => minutes.sunrise,
        Prayer::Dhuhr => minutes.dhuhr,
        Prayer::Asr => minutes.asr,
        Prayer::Maghrib => minutes.maghrib,
        Prayer::Isha => minutes.isha,
        Prayer::Qiyam | Prayer::FajrTomorrow => 0,
    }
}

#[derive(Clone, Copy)]
pub struct NightPortions {
    pub fajr: f64,
    pub isha: f64,
}

impl Parameters {
    // The defaults.
    pub const METHOD: Method = Method::Other;

    pub const MAGHRIB_ANGLE: f64 = 0.0;

    pub const ISHA_INTERVAL: i32 = 0;

    pub const MADHAB: Madhab = Madhab::Shafi;

    pub const HIGH_LATITUDE_RULE: HighLatitudeRule = HighLatitudeRule::MiddleOfTheNight;

    pub const ADJUSTMENTS: TimeAdjustment = TimeAdjustment::NONE;

    pub const ROUNDING: Rounding = Rounding::Nearest;

    pub const SHAFAQ: Shafaq = Shafaq::General;

    #[tactic(auto, unfolding(crate::specs::Settings::parameters_new_of, float64::specs::Ops::dec))]
    pub fn new(fajr_angle: f64, isha_angle: f64) -> Parameters
        ensures { result ≡ parameters_new_of fajr_angle isha_angle }
    {
        Parameters {
            method: Self::METHOD,
            fajr_angle,
            maghrib_angle: Self::MAGHRIB_ANGLE,
            isha_angle,
            isha_interval: Self::ISHA_INTERVAL,
            madhab: Self::MADHAB,
            high_latitude_rule: Self::HIGH_LATITUDE_RULE,
            adjustments: Self::ADJUSTMENTS,
            method_adjustments: Self::ADJUSTMENTS,
            rounding: Self::ROUNDING,
            shafaq: Self::SHAFAQ,
        }
    }

    // The portions of the night that bound Fajr and Isha.
    pub fn night_portions(self) -> NightPortions
        ensures { result ≡ night_portions_of self }
    {
        match self.high_latitude_rule {
            HighLatitudeRule::MiddleOfTheNight => NightPortions {
                fajr: 1.0 / 2.0,
                isha: 1.0 / 2.0,
            },
            HighLatitudeRule::SeventhOfTheNight => NightPortions {
                fajr: 1.0 / 7.0,
                isha: 1.0 / 7.0,
            },
            HighLatitudeRule::TwilightAngle => NightPortions {
                fajr: self.fajr_angle / 60.0,
                isha: self.isha_angle / 60.0,
            },
        }
    }

    // A prayer's own minutes plus the method's. The bound is promised too, for callers that add to the sum.
    pub fn time_adjustments(self, prayer: Prayer) -> i64
        ensures { (result ≡ time_adjustments_of self prayer) × Near (2 ^ 32) result }
    {
        sum(
            minutes_for(prayer, self.adjustments),
            minutes_for(prayer, self.method_adjustments),
        )
    }
}

// Builds Parameters, a field at a time.
#[derive(Clone, Copy)]
pub struct Configuration {
    pub parameters: Parameters,
}

impl Configuration {
    pub fn new(fajr_angle: f64, isha_angle: f64) -> Configuration
        ensures { result ≡ configuration_of (parameters_new_of fajr_angle isha_angle) }
    {
        Configuration {
            parameters: Parameters::new(fajr_angle, isha_angle),
        }
    }

    pub fn method(mut self, method: Method) -> Configuration
        ensures { result ≡ set_method self method }
    {
        self.parameters.method = method;
        self
    }

    pub fn method_adjustments(mut self, method_adjustments: TimeAdjustment) -> Configuration
        ensures { result ≡ set_method_adjustments self method_adjustments }
    {
        self.parameters.method_adjustments = method_adjustments;
        self
    }

    pub fn high_latitude_rule(mut self, high_latitude_rule: HighLatitudeRule) -> Configuration
        ensures { result ≡ set_high_latitude_rule self high_latitude_rule }
    {
        self.parameters.high_latitude_rule = high_latitude_rule;
        self
    }

    pub fn madhab(mut self, madhab: Madhab) -> Configuration
        ensures { result ≡ set_madhab self madhab }
    {
        self.parameters.madhab = madhab;
        self
    }

    // An interval takes the place of the Isha angle.
    #[tactic(auto, unfolding(crate::specs::Builder::set_isha_interval, float64::specs::Ops::dec))]
    pub fn isha_interval(mut self, isha_interval: i32) -> Configuration
        ensures { result ≡ set_isha_interval self isha_interval }
    {
        self.parameters.isha_angle = 0.0;
        self.parameters.isha_interval = isha_interval;
        self
    }

    pub fn maghrib_angle(mut self, angle: f64) -> Configuration
        ensures { result ≡ set_maghrib_angle self angle }
    {
        self.parameters.maghrib_angle = angle;
        self
    }

    pub fn rounding(mut self, rounding: Rounding) -> Configuration
        ensures { result ≡ set_rounding self rounding }
    {
        self.parameters.rounding = rounding;
        self
    }

    pub fn shafaq(mut self, shafaq: Shafaq) -> Configuration
        ensures { result ≡ set_shafaq self shafaq }
    {
        self.parameters.shafaq = shafaq;
        self
    }

    pub fn done(self) -> Parameters
        ensures { result ≡ self.parameters }
    {
        self.parameters
    }

    // A method's preset with another madhab.
    #[tactic(auto, unfolding(crate::specs::Presets::with_of))]
    pub fn with(method: Method, madhab: Madhab) -> Parameters
        ensures { result ≡ with_of method madhab }
    {
        Parameters {
            madhab,
            ..method.parameters()
        }
    }
}
