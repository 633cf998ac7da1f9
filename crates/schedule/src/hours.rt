// The hour numbers that a row's times are worked from, and the sun's times that they give.
ghost use Rattle.std.specs.Prelude.{◌≡◌};
ghost use Rattle.schedule.specs.Hours.{numbered_of, sun_of, suns_of, hours_of};

use models::rules::Midnight;
use refusals::Refusal;
use solar::hours::HourNumbers;
use solar::times::{Missing, SolarTime, solar_hour};

// The numbers of the date and of the two dates after it, of the date's Fajr, Asr and Isha, and of the next date's Fajr.
#[repr(C)]
#[derive(Clone, Copy)]
pub struct RowNumbers {
    pub today: HourNumbers,
    pub tomorrow: HourNumbers,
    pub after: HourNumbers,
    pub fajr: f64,
    pub asr: f64,
    pub isha: f64,
    pub fajr_tomorrow: f64,
}

// The sun's times on the date and on the two dates after it.
#[derive(Clone, Copy)]
pub struct ThreeSuns {
    pub today: SolarTime,
    pub tomorrow: SolarTime,
    pub after: SolarTime,
}

// Each time is counted from 0h of its own date.
#[derive(Clone, Copy)]
pub struct RowHours {
    pub suns: Result<ThreeSuns, Refusal>,
    pub fajr: Option<i32>,
    pub asr: Option<i32>,
    pub isha: Option<i32>,
    pub fajr_tomorrow: Option<i32>,
}

// A day's times, or the number of the time that it lacks: 6, 7 or 8.
#[tactic(auto, unfolding(crate::specs::Hours::numbered_of))]
pub fn numbered(times: Result<SolarTime, Missing>) -> Result<SolarTime, u32>
    ensures { result ≡ numbered_of times }
{
    times.map_err(Missing::number)
}

// A day's times, or its refusal, with the day, 0, 1 or 2, as its place.
#[tactic(auto, unfolding(crate::specs::Hours::sun_of))]
fn sun(times: Result<SolarTime, u32>, day: u32) -> Result<SolarTime, Refusal>
    ensures { result ≡ sun_of times day }
{
    times.map_err(|number| Refusal::new(number, day))
}

impl ThreeSuns {
    // The three days, or the refusal of the first that lacks a time, with the number that it gives.
    #[tactic(auto, unfolding(crate::specs::Hours::suns_of, crate::specs::Hours::sun_of))]
    pub fn new(
        today: Result<SolarTime, u32>,
        tomorrow: Result<SolarTime, u32>,
        after: Result<SolarTime, u32>,
    ) -> Result<ThreeSuns, Refusal>
        ensures { result ≡ suns_of today tomorrow after }
    {
        Ok(ThreeSuns {
            today: sun(today, 0)?,
            tomorrow: sun(tomorrow, 1)?,
            after: sun(after, 2)?,
        })
    }
}

impl RowHours {
    #[tactic(auto, unfolding(crate::specs::Hours::hours_of))]
    pub fn new(rule: Midnight, numbers: RowNumbers) -> RowHours
        ensures { result ≡ hours_of rule numbers }
    {
        RowHours {
            suns: ThreeSuns::new(
                numbered(SolarTime::new(rule, numbers.today)),
                numbered(SolarTime::new(rule, numbers.tomorrow)),
                numbered(SolarTime::new(rule, numbers.after)),
            ),
            fajr: solar_hour(rule, numbers.fajr),
            asr: solar_hour(rule, numbers.asr),
            isha: solar_hour(rule, numbers.isha),
            fajr_tomorrow: solar_hour(rule, numbers.fajr_tomorrow),
        }
    }
}
