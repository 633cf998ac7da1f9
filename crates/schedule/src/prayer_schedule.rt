// schedule.rs: the builder of a date's times, by value.
ghost use Rattle.std.specs.Prelude.{◌≡◌};
ghost use Rattle.schedule.specs.Builder.{no_schedule, on_of, for_location_of, with_configuration_of, calculate_of};

use super::rolling::RowSuns;
use crate::prayer_times::PrayerTimes;
use calendar::dates::Date;
use models::parameters::Parameters;
use models::rules::Rules;
use models::setting::Setting;
use refusals::Refusal;
use unit::Coordinates;

#[derive(Clone, Copy)]
pub struct PrayerSchedule {
    pub date: Option<Date>,
    pub coordinates: Option<Coordinates>,
    pub params: Option<Parameters>,
}

impl PrayerSchedule {
    pub fn new() -> PrayerSchedule
        ensures { result ≡ no_schedule }
    {
        PrayerSchedule {
            date: None,
            coordinates: None,
            params: None,
        }
    }

    pub fn on(self, date: Date) -> PrayerSchedule
        ensures { result ≡ on_of self date }
    {
        PrayerSchedule {
            date: Some(date),
            ..self
        }
    }

    pub fn for_location(self, location: Coordinates) -> PrayerSchedule
        ensures { result ≡ for_location_of self location }
    {
        PrayerSchedule {
            coordinates: Some(location),
            ..self
        }
    }

    pub fn with_configuration(self, params: Parameters) -> PrayerSchedule
        ensures { result ≡ with_configuration_of self params }
    {
        PrayerSchedule {
            params: Some(params),
            ..self
        }
    }

    #[tactic(auto, unfolding(crate::specs::Builder::calculated_from))]
    pub fn calculate(self) -> Option<Result<PrayerTimes, Refusal>>
        ensures { result ≡ calculate_of self }
    {
        let date = self.date?;
        let setting = Setting {
            coordinates: self.coordinates?,
            parameters: self.params?,
            rules: Rules::source(),
        };
        Some(RowSuns::new(date, setting).work(setting))
    }
}
